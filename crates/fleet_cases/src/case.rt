//! Cases: the lines that are read, and what is printed about them.

use case_words::flaw::Flaw;
use case_words::words::parts;
use std::alloc::{AllocError, Global};
use std::thread::Threads;

// A case: a name, a question, and the expected answer, if there is one. The answer comes after
// ` => `.
#[derive(Clone, Copy)]
struct Case<'a> {
    name: &'a str,
    question: &'a str,
    wanted: Option<&'a str>,
}

impl<'a> Case<'a> {
    // The case of a line. None if the line is empty, or if it is a remark, which begins with `#`.
    fn of_line(line: &'a str) -> Option<Case<'a>> {
        if line.is_empty() || line.starts_with('#') {
            return None;
        }
        let (asked, wanted) = match line.split_once(" => ") {
            Some((asked, wanted)) => (asked, Some(wanted)),
            None => (line, None),
        };
        let (name, question) = asked.split_once(' ').unwrap_or((asked, ""));
        Some(Case {
            name,
            question,
            wanted,
        })
    }

    // Appends a line about the case.
    fn tell(&self, said: &mut String, words: &str, answer: &str) -> Result<(), AllocError> {
        said.push_str(self.name)?;
        said.push_str(words)?;
        said.push_str(answer)?;
        said.push('\n')
    }
}

/// How many cases there were, and how many of them differ.
#[derive(Clone, Copy)]
pub struct Tally {
    pub cases: u64,
    pub differ: u64,
}

impl Tally {
    pub fn new() -> Tally {
        Tally {
            cases: 0,
            differ: 0,
        }
    }

    /// Runs the case of a line, and appends what is to be printed about it.
    pub fn take<R: Threads + Sync>(
        &mut self,
        rt: &R,
        alloc: Global,
        line: &[u8],
        said: &mut String,
    ) -> Result<(), AllocError> {
        match str::from_utf8(line) {
            Ok(text) => self.take_text(rt, alloc, text, said),
            Err(_) => {
                let case = Case {
                    name: "?",
                    question: "",
                    wanted: Some(""),
                };
                self.cases = self.cases.saturating_add(1);
                self.take_flaw(case, Flaw::Text, said)
            }
        }
    }

    fn take_text<R: Threads + Sync>(
        &mut self,
        rt: &R,
        alloc: Global,
        text: &str,
        said: &mut String,
    ) -> Result<(), AllocError> {
        let Some(case) = Case::of_line(text) else {
            return Ok(());
        };
        self.cases = self.cases.saturating_add(1);
        let mut answer = String::new(alloc);
        match answer_to(rt, alloc, case.question, &mut answer) {
            Ok(()) => self.take_answer(case, answer.as_str(), said),
            Err(flaw) => self.take_flaw(case, flaw, said),
        }
    }

    fn take_answer(
        &mut self,
        case: Case<'_>,
        answer: &str,
        said: &mut String,
    ) -> Result<(), AllocError> {
        let Some(wanted) = case.wanted else {
            return case.tell(said, " ", answer);
        };
        if wanted == answer {
            return Ok(());
        }
        self.differ = self.differ.saturating_add(1);
        case.tell(said, " differs, and answers ", answer)
    }

    fn take_flaw(
        &mut self,
        case: Case<'_>,
        flaw: Flaw,
        said: &mut String,
    ) -> Result<(), AllocError> {
        if flaw == Flaw::Memory {
            return Err(AllocError);
        }
        if case.wanted.is_some() {
            self.differ = self.differ.saturating_add(1);
        }
        case.tell(said, " is malformed: ", flaw.word())
    }

    /// Appends the last line, which counts the cases.
    pub fn tell(&self, said: &mut String) -> Result<(), AllocError> {
        let cases = self.cases;
        let differ = self.differ;
        write!(said, "{cases} cases, {differ} differ\n")
    }
}

// Answers a question, which is the name of a call with its words.
fn answer_to<R: Threads + Sync>(
    rt: &R,
    alloc: Global,
    question: &str,
    answer: &mut String,
) -> Result<(), Flaw> {
    let words = parts(alloc, question, ' ')?;
    match words.as_slice() {
        [name, rest @ ..] => answer_of(rt, alloc, name, rest, answer),
        [] => Err(Flaw::Words),
    }
}

fn answer_of<R: Threads + Sync>(
    rt: &R,
    alloc: Global,
    name: &str,
    words: &[&str],
    answer: &mut String,
) -> Result<(), Flaw> {
    if case_tables::answers(alloc, name, words, answer)?
        || case_jobs::answers(rt, alloc, name, words, answer)?
        || case_book::answers(alloc, name, words, answer)?
        || case_sched::answers(alloc, name, words, answer)?
    {
        Ok(())
    } else {
        Err(Flaw::Name)
    }
}
