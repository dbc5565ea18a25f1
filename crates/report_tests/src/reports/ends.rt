use super::{Captured, Row};
use fw_base::Name;
use fw_rule::Items;
use report_texts::{Answer, CaptureEnd, Ends, LineAnswer};
use rule_edits::ApplyFault;
use std::alloc::Global;
use std::test::Fail;

/// How a line of the script is answered.
#[derive(Clone, Copy)]
pub(super) enum Told {
    Refused(ApplyFault),
    /// The rules of the edition of this number are listed.
    Rules(u64),
    /// The entries of its table `nets` are listed.
    Nets(u64),
}

fn captures_of(alloc: Global, captures: &[Captured<'_>]) -> Result<Items<CaptureEnd>, Fail> {
    let mut ends = Vec::new(alloc);
    for capture in captures {
        ends.push(capture.end)?;
    }
    Ok(Items::from_vec(ends))
}

fn answer_of(alloc: Global, told: Told) -> Result<Answer, Fail> {
    match told {
        Told::Refused(fault) => Ok(Answer::Refused(fault)),
        Told::Rules(edition) => Ok(Answer::Listed {
            edition,
            table: None,
        }),
        Told::Nets(edition) => Ok(Answer::Listed {
            edition,
            table: Some(Name::new(alloc, b"nets")?),
        }),
    }
}

fn line_answer(alloc: Global, line: u32, told: Told) -> Result<LineAnswer, Fail> {
    let answer = answer_of(alloc, told)?;
    Ok(LineAnswer { line, answer })
}

fn answers_of(alloc: Global, told: &[(u32, Told)]) -> Result<Items<LineAnswer>, Fail> {
    let mut answers = Vec::new(alloc);
    for (line, answer) in told {
        answers.push(line_answer(alloc, *line, *answer)?)?;
    }
    Ok(Items::from_vec(answers))
}

pub(super) fn ends_of(alloc: Global, row: &Row<'_>) -> Result<Ends, Fail> {
    let captures = captures_of(alloc, row.captures)?;
    let answers = answers_of(alloc, row.answers)?;
    Ok(Ends { captures, answers })
}
