// The count of cases, and what is printed: the line of each group, each line of the script that differs, the line that
// is refused. What cannot be printed is left out.
use crate::expect::Difference;
use crate::fault::Fault;
use std::io::Stdout;

// Cases that are as expected, and those that are not.
#[derive(Clone, Copy, Debug, Default)]
struct Tally {
    ok: u64,
    wrong: u64,
}

#[derive(Clone, Copy)]
pub struct Report<'a> {
    out: Stdout,
    // the line of the script, from 1
    line: u64,
    // the name of the group, once a line has begun one
    group: Option<&'a [u8]>,
    // the cases of the group, and those of the groups before
    cases: Tally,
    before: Tally,
}

impl<'a> Report<'a> {
    pub fn new(out: Stdout) -> Report<'a> {
        Report {
            out,
            line: 1,
            group: None,
            cases: Tally::default(),
            before: Tally::default(),
        }
    }

    pub fn next_line(&mut self) {
        self.line = self.line.saturating_add(1);
    }

    // One case: a difference is printed.
    pub fn judge(&mut self, difference: Option<Difference>) {
        match difference {
            None => self.cases.ok = self.cases.ok.saturating_add(1),
            Some(difference) => {
                let line = self.line;
                let _ = println!(self.out; "line {line}:{difference}");
                self.cases.wrong = self.cases.wrong.saturating_add(1);
            }
        }
    }

    // The line is refused.
    pub fn refuse(&self, fault: Fault) {
        let line = self.line;
        let _ = println!(self.out; "line {line}: {fault}");
    }

    // The group ends, and its line is printed. There is none where no group was begun and no case was met.
    fn end_group(&mut self) {
        let Tally { ok, wrong } = self.cases;
        let cases = ok.saturating_add(wrong);
        if self.group.is_none() && cases == 0 {
            return;
        }
        let _ = self.out.write_all(self.group.unwrap_or(&[]));
        let _ = println!(self.out; ": {cases} cases, {wrong} wrong");
        self.before.ok = self.before.ok.saturating_add(ok);
        self.before.wrong = self.before.wrong.saturating_add(wrong);
        self.cases = Tally::default();
    }

    pub fn begin_group(&mut self, name: &'a [u8]) {
        self.end_group();
        self.group = Some(name);
    }

    // The script ends.
    pub fn end(&mut self) {
        self.end_group();
        let Tally { ok, wrong } = self.before;
        let _ = println!(self.out; "cases: {ok} ok, {wrong} wrong");
    }
}
