//! The words by which a caller asks something of a standby in service.
use json::Scratch;
use nn_live::Word;
use std::test::Fail;

// The words that stand alone in turn, and 100 and more with a number or a block; 0 is no word, and 9 one that is unknown.
fn number_of(word: Option<Word>) -> u64 {
    match word {
        None => 0,
        Some(Word::Sync) => 1,
        Some(Word::Status) => 2,
        Some(Word::Held(None)) => 3,
        Some(Word::Unsafe(None)) => 4,
        Some(Word::Tables) => 5,
        Some(Word::Checkpoint) => 6,
        Some(Word::Path(_)) => 7,
        Some(Word::Help) => 8,
        Some(Word::Unknown) => 9,
        Some(Word::Held(Some(n))) => 100 + n % 50,
        Some(Word::Unsafe(Some(n))) => 200 + n % 50,
        Some(Word::Block(_)) => 300,
        Some(Word::Replicas(_)) => 350,
        Some(Word::Gone(n)) => 400 + n % 50,
        Some(
            Word::Promote {
                txid,
                epoch,
                losing: false,
            },
        ) => 500 + txid % 50 + 1_000 * (epoch % 50),
        Some(
            Word::Promote {
                txid,
                epoch,
                losing: true,
            },
        ) => 600 + txid % 50 + 1_000 * (epoch % 50),
        Some(Word::Seen(n)) => 700 + n % 50,
        Some(Word::Epoch(n)) => 800 + n % 50,
    }
}

#[test]
fn each_word_is_read(rt: HostRuntime) -> Result<(), Fail> {
    let mut scratch = Scratch::new(rt.alloc());
    for (line, number) in [
        ("sync", 1),
        ("status", 2),
        ("held", 3),
        ("unsafe", 4),
        ("tables", 5),
        ("checkpoint", 6),
        ("path \"/a/b\\u0063\"", 7),
        ("held 0", 100),
        ("unsafe 1", 201),
        ("block 1073741825", 300),
        ("replicas 1073741825", 350),
        ("help", 8),
        ("gone 3", 403),
        ("promote 9223372036854775807", 507),
        ("promote 4 lost", 604),
        ("promote 4 epoch 3", 3_504),
        ("promote 4 epoch 9223372036854775807 lost", 7_604),
        ("seen 5", 705),
        ("epoch 6", 806),
        ("promote 9223372036854775808", 9),
        ("promote 04", 9),
        ("promote 4 epoch 03", 9),
        ("promote 4 epoch", 9),
        ("promote 4 lost epoch 3", 9),
        ("epoch", 9),
        ("path /a", 9),
        ("replicas", 9),
        ("help ", 9),
        ("Help", 0),
        (" help", 0),
        ("{help}", 0),
        ("", 0),
    ] {
        let word = Word::read(rt.alloc(), &mut scratch, line.as_bytes())?;
        assert_eq!(rt; number_of(word), number);
    }
    Ok(())
}
