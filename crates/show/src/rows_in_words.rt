//! Rows in words.
use rows::fields::ActionFields;
use rows::rows::{ActionRow, FormulaRow};
use std::fmt;

/// An action row, to be printed in words.
#[derive(Clone, Copy)]
pub struct ActionWords(ActionRow);

/// A formula row, to be printed in words.
#[derive(Clone, Copy)]
pub struct FormulaWords(pub FormulaRow);

impl fmt::Display for ActionWords {
    fn fmt<W: fmt::Write>(&self, f: &mut fmt::Formatter<W>) -> fmt::Result {
        match self.0 {
            ActionRow::Any => write!(f, "any action"),
            ActionRow::Is(x) => write!(f, "the action {x}"),
            ActionRow::Not(x) => write!(f, "not a{x}"),
            ActionRow::And(x, y) => write!(f, "a{x} and a{y}"),
        }
    }
}

impl fmt::Display for FormulaWords {
    fn fmt<W: fmt::Write>(&self, f: &mut fmt::Formatter<W>) -> fmt::Result {
        match self.0 {
            FormulaRow::True => write!(f, "true"),
            FormulaRow::Not(p) => write!(f, "not f{p}"),
            FormulaRow::And(p, q) => write!(f, "f{p} and f{q}"),
            FormulaRow::ExistsNext { by, then } => write!(f, "a path begins by a{by} with f{then}"),
            FormulaRow::ExistsSilent { then } => write!(f, "a path begins silently with f{then}"),
            FormulaRow::AllNext { by, then } => write!(f, "all paths begin by a{by} with f{then}"),
            FormulaRow::AllSilent { then } => write!(f, "all paths begin silently with f{then}"),
            FormulaRow::ExistsUntil { hold, by, goal } => write!(
                f,
                "on a path f{hold} along a{by} until f{goal}"
            ),
            FormulaRow::ExistsUntilBy {
                hold,
                by,
                last,
                goal,
            } => write!(
                f,
                "on a path f{hold} along a{by} until a{last} leads to f{goal}"
            ),
            FormulaRow::AllUntil { hold, by, goal } => write!(
                f,
                "on all paths f{hold} along a{by} until f{goal}"
            ),
            FormulaRow::AllUntilBy {
                hold,
                by,
                last,
                goal,
            } => write!(
                f,
                "on all paths f{hold} along a{by} until a{last} leads to f{goal}"
            ),
        }
    }
}

/// Prints the action rows, three bytes to each.
pub fn print_action_rows(rt: &HostRuntime, body: &[u8]) -> anyhow::Result<()> {
    println!(rt; "Tests of visible actions:")?;
    let (rows, _) = body.as_chunks::<3>();
    for (k, bytes) in rows.iter().enumerate() {
        if let Ok(row) = ActionRow::try_from(ActionFields::from(*bytes)) {
            println!(rt; "  a{k}: {}", ActionWords(row))?;
        }
    }
    Ok(())
}
