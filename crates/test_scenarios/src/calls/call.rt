//! A call: its words as values, and its answer.
ghost use Rattle.std.specs.Prelude.{◌<◌, ◌^◌};

use nn_tree::BlockRow;
use nn_types::{Block, BlockId, GenerationStamp, Kind, Length, Message, Status};
use std::alloc::Global;
use std::fmt::Display;

/// The words of a call, and what it has answered so far. `failed` is set where a word is missing or is no such value,
/// and where memory runs out.
#[derive(Drop)]
pub struct Call<'a> {
    pub alloc: Global,
    pub words: Vec<&'a str>,
    pub answer: String,
    pub failed: bool,
}

impl<'a> Call<'a> {
    pub fn new(alloc: Global, line: &'a str) -> Call<'a> {
        let mut words = Vec::new(alloc);
        let mut failed = false;
        for word in line.split(' ') {
            failed = failed || words.push(word).is_err();
        }
        Call {
            alloc,
            words,
            answer: String::new(alloc),
            failed,
        }
    }

    /// Whether the call has this name.
    pub fn is(&self, name: &str) -> bool {
        match self.words.first() {
            Some(word) => *word == name,
            None => false,
        }
    }

    pub fn word(&mut self, at: usize) -> &'a str {
        match self.words.get(at) {
            Some(word) => *word,
            None => {
                self.failed = true;
                ""
            }
        }
    }

    /// A number of the log or of a report.
    pub fn number(&mut self, at: usize) -> u64
        ensures { result < 2 ^ 63 }
    {
        match self.word(at).parse::<u64>() {
            Ok(number) if number <= 0x7fff_ffff_ffff_ffff => number,
            _ => {
                self.failed = true;
                0
            }
        }
    }

    pub fn datanode(&mut self, at: usize) -> u16 {
        match u16::try_from(self.number(at)) {
            Ok(dn) => dn,
            Err(_) => {
                self.failed = true;
                0
            }
        }
    }

    pub fn id(&mut self, at: usize) -> BlockId {
        BlockId::new(self.number(at)).unwrap()
    }

    pub fn stamp(&mut self, at: usize) -> GenerationStamp {
        GenerationStamp::new(self.number(at)).unwrap()
    }

    pub fn length(&mut self, at: usize) -> Length {
        Length::new(self.number(at)).unwrap()
    }

    /// A block: its id, and after it its stamp and length. Of a report it is the replica.
    pub fn block(&mut self) -> Block {
        Block {
            id: self.id(1),
            stamp: self.stamp(2),
            len: self.length(3),
        }
    }

    /// A message of DataNode, number, block and stamp from this word on: a received replica of no bytes.
    pub fn message(&mut self, at: usize) -> Message
        requires { at < 2 ^ 63 }
    {
        Message {
            dn: self.datanode(at),
            number: self.number(at + 1),
            block: self.id(at + 2),
            stamp: self.stamp(at + 3),
            len: Length::ZERO,
            kind: Kind::Received,
        }
    }

    /// The messages of the call, each of four words.
    pub fn messages(&mut self) -> Vec<Message> {
        let mut messages = Vec::new(self.alloc);
        for place in 0..self.words.len() / 4 {
            let message = self.message(4 * place + 1);
            self.failed = messages.push(message).is_err() || self.failed;
        }
        messages
    }

    /// The status of a block: its generation stamp where it is named.
    pub fn status(&mut self, at: usize) -> Status {
        let word = self.word(at);
        if word == "unnamed" {
            return Status::Unnamed;
        }
        if word == "awaiting" {
            return Status::Awaiting;
        }
        if word == "retired" {
            return Status::Retired;
        }
        Status::Named(self.stamp(at))
    }

    /// Answers one word more.
    pub fn say(&mut self, word: &str) {
        if !self.answer.is_empty() && self.answer.push(' ').is_err() {
            self.failed = true;
        }
        if self.answer.push_str(word).is_err() {
            self.failed = true;
        }
    }

    /// Answers the lines of a text, with a blank between them.
    pub fn say_lines(&mut self, text: &str) {
        for line in text.lines() {
            self.say(line);
        }
    }

    /// Answers a value as it is printed.
    pub fn show<T: Display>(&mut self, value: &T) {
        match format!(in self.alloc; "{value}") {
            Ok(text) => self.say(&text),
            Err(_) => self.failed = true,
        }
    }

    /// Answers `none` where nothing was answered.
    pub fn none(&mut self) {
        if self.answer.is_empty() {
            self.say("none");
        }
    }

    /// A fault by its number, and as it is printed.
    pub fn fault<T: Display>(&mut self, number: u8, fault: &T) {
        self.say("fault");
        self.show(&number);
        self.show(fault);
    }

    /// A message as DN:NUMBER:BLOCK:STAMP.
    pub fn show_message(&mut self, message: &Message) {
        let (dn, number) = (message.dn, message.number);
        let (block, stamp) = (message.block.get(), message.stamp.get());
        match format!(in self.alloc; "{dn}:{number}:{block}:{stamp}") {
            Ok(text) => self.say(&text),
            Err(_) => self.failed = true,
        }
    }

    /// Answers a message that may be there, or `none`.
    pub fn show_taken(&mut self, message: &Option<Message>) {
        match message {
            Some(message) => self.show_message(message),
            None => self.say("none"),
        }
    }

    /// A block's row as BLOCK:STAMP:LENGTH and `closed` or `open`.
    pub fn show_row(&mut self, row: &BlockRow) {
        let (id, stamp, len) = (
            row.block.id.get(),
            row.block.stamp.get(),
            row.block.len.get(),
        );
        match format!(in self.alloc; "{id}:{stamp}:{len}") {
            Ok(text) => self.say(&text),
            Err(_) => self.failed = true,
        }
        self.say(if row.closed { "closed" } else { "open" });
    }
}
