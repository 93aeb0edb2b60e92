use crate::{Mode, Refusal, Request};
use std::test::Fail;

/// Words, and what they ask for: the mode, the id, the port and the miss.
const ASKED: [(&[&str], Mode, u8, u16, u32); 12] = [
    (&["cluster"], Mode::Cluster, 0, 47_000, 100),
    (&["node"], Mode::Node, 0, 47_000, 100),
    (&["guard"], Mode::Guard, 0, 47_000, 100),
    (&["node", "--id", "64"], Mode::Node, 64, 47_000, 100),
    (&["node", "--port", "1024"], Mode::Node, 0, 1_024, 100),
    (
        &["cluster", "--port", "65000"],
        Mode::Cluster,
        0,
        65_000,
        100,
    ),
    (
        &["guard", "--miss", "1000000"],
        Mode::Guard,
        0,
        47_000,
        1_000_000,
    ),
    (
        &["guard", "--id", "7", "--port", "2000", "--miss", "1"],
        Mode::Guard,
        7,
        2_000,
        1,
    ),
    // Not in plain form, and taken all the same.
    (
        &["--miss", "3", "--port=2000", "guard", "--id", "7"],
        Mode::Guard,
        7,
        2_000,
        3,
    ),
    (&["node", "--id", "07"], Mode::Node, 7, 47_000, 100),
    (&["node", "--id", "+7"], Mode::Node, 7, 47_000, 100),
    (&["--", "node"], Mode::Node, 0, 47_000, 100),
];

/// Words that are no command line of the program.
const BAD: [&[&str]; 20] = [
    &[],
    &[""],
    &["Cluster"],
    &["run"],
    &["node", "guard"],
    &["node", "--id"],
    &["node", "--id", "65"],
    &["node", "--id", "-1"],
    &["node", "--id", "seven"],
    &["node", "--id", ""],
    &["node", "--port", "1023"],
    &["node", "--port", "65001"],
    &["guard", "--miss", "0"],
    &["guard", "--miss", "1000001"],
    &["node", "--id", "1", "--id", "2"],
    &["node", "-i", "1"],
    &["node", "--identity", "1"],
    &["node", "--help=yes"],
    &["help"],
    &["run", "--help"],
];

/// Words that ask for a text, and how it begins.
const SHOWN: [(&[&str], &str); 5] = [
    (&["--version"], "tcs_net 1.0\n"),
    (&["-V"], "tcs_net 1.0\n"),
    (&["--help"], "Runs the nodes"),
    (&["-h"], "Runs the nodes"),
    (
        &["node", "--id", "1", "--help", "--port", "1"],
        "Runs the nodes",
    ),
];

fn answer(rt: &HostRuntime, words: &[&str]) -> Result<Result<Request, Refusal>, Fail> {
    let mut list = Vec::new(rt.alloc());
    for word in words {
        list.push(String::from_str(rt.alloc(), *word)?)?;
    }
    Ok(Request::from_words(rt.alloc(), &list))
}

#[test]
fn words_and_what_they_ask_for(rt: HostRuntime) -> Result<(), Fail> {
    for (words, mode, id, port, miss) in ASKED {
        let wanted = Request {
            mode,
            id,
            port,
            miss,
        };
        assert!(rt;
            matches!(answer(&rt, words)?, Ok(asked) if asked == wanted),
            "{words:?}"
        );
    }
    for words in BAD {
        assert!(rt;
            matches!(answer(&rt, words)?, Err(Refusal::BadWords)),
            "{words:?}"
        );
    }
    for (words, start) in SHOWN {
        match answer(&rt, words)? {
            Err(Refusal::Shown(text)) => assert!(rt; text.starts_with(start), "{words:?}: {text}"),
            _ => assert!(rt; false, "{words:?}"),
        }
    }
    Ok(())
}
