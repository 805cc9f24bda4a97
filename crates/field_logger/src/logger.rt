// Lines into the log. A function that may print has the error of the write that failed, and the log stays as it then is.
ghost use Rattle.std.specs.Prelude.{◌≡◌, ◌+◌, ◌≤◌};

use payload::kind::Kind;
use refusal::Refusal;
use segment::SegmentManager;
use std::io;

#[derive(Drop)]
pub(crate) struct Logger<'a> {
    manager: SegmentManager,
    area: &'a mut [u8],
    directory: &'a mut [u8],
    used: usize,
    // Entries written. The next one's log number is one more.
    logged: u64,
}

// The key and the value of a line, if it has a space.
#[derive(Clone, Copy)]
struct Setting<'a> {
    key: &'a [u8],
    value: &'a [u8],
}

fn setting_in(text: &[u8]) -> Option<Setting<'_>> {
    let cut = console::cut_at(text, b' ');
    if cut.before == text.len() {
        return None;
    }
    Some(Setting {
        key: &text[..cut.before],
        value: &text[cut.passed..],
    })
}

impl<'a> Logger<'a> {
    // An empty log with its first segment.
    pub(crate) fn open(area: &'a mut [u8], directory: &'a mut [u8]) -> Logger<'a>
        ensures { result.logged ≡ 0 }
    {
        let opening = SegmentManager::with_default_size().open(area, directory, 0);
        Logger {
            manager: opening.manager,
            area,
            directory,
            // It is not refused with these buffers; without a segment the first append would be.
            used: opening.answer.unwrap_or(0),
            logged: 0,
        }
    }

    // One entry more, or the refusal.
    fn append(&mut self, kind: Kind, line: u64, setting: Setting) -> Result<(), Refusal>
        ensures { self.new.logged ≤ self.old.logged + 1 }
    {
        // No input has lines enough to reach the most.
        let lsn = self.logged.saturating_add(1);
        let area = &mut *self.area;
        let directory = &mut *self.directory;
        let appending = self.manager.append(
            area,
            directory,
            self.used,
            lsn,
            kind as u64,
            line,
            line,
            setting.key,
            b"",
            setting.value,
        );
        self.manager = appending.manager;
        self.used = appending.answer?.used;
        self.logged = lsn;
        Ok(())
    }

    // A line's insert and its commit.
    fn log(&mut self, line: u64, setting: Setting) -> Result<(), Refusal>
        ensures { self.new.logged ≤ self.old.logged + 2 }
    {
        self.append(Kind::Insert, line, setting)?;
        let none = Setting {
            key: b"",
            value: b"",
        };
        self.append(Kind::Commit, line, none)
    }

    // Up to the first line that is refused, which is told.
    pub(crate) fn log_lines(&mut self, rt: &impl Print, input: &[u8]) -> io::Result<()> {
        for (i, text) in input.split_inclusive(|byte| *byte == b'\n').enumerate() {
            let line = i as u64 + 1;
            let Some(setting) = setting_in(text.strip_suffix(b"\n").unwrap_or(text)) else {
                println!(rt; "bad line {line}")?;
                continue;
            };
            if let Err(refusal) = self.log(line, setting) {
                let number = refusal.number();
                return println!(rt; "refused {number} at line {line}");
            }
        }
        Ok(())
    }

    pub(crate) fn print(&self, rt: &impl Print) -> io::Result<()> {
        console::print_line(rt, b"logged", &[self.logged])?;
        console::print_segments(rt, self.directory, self.used)
    }
}
