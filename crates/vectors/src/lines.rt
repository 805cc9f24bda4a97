// Vectors that stand one to a line: a line feed ends each, and none holds one.
use super::tally::Tally;

// What is asked of each line.
#[derive(Clone, Copy)]
pub(crate) enum Question {
    IsUtf8,
    IsNotUtf8,
    // As a payload.
    IsRefused,
}

fn answers(question: Question, line: &[u8]) -> bool {
    match question {
        Question::IsUtf8 => utf8::is_utf8(line),
        Question::IsNotUtf8 => !utf8::is_utf8(line),
        Question::IsRefused => entry::decode(line).is_none(),
    }
}

pub(crate) fn ask(tally: Tally, question: Question, text: &[u8]) -> Tally {
    let mut t = tally;
    for line in text.split_inclusive(|byte| *byte == b'\n') {
        if let Some(line) = line.strip_suffix(b"\n") {
            t = t.with(answers(question, line));
        }
    }
    t
}
