//! The rows of a sheet.
ghost use Rattle.std.specs.Prelude.{◌≡◌};
ghost use Rattle.rows.specs.Fields.{Makes};
ghost use Rattle.rows.specs.Rows.{action_row, formula_row, action_names, row_names, test_names, beyond};

use crate::fields::{ActionFields, FormulaFields, UnknownKind};

// Rows name earlier rows by number, as the format does, and hold no boxes: a row is five bytes at most, without a heap.
/// A test of visible actions. A number names an earlier action row, but for `Is`, where it is the action.
#[derive(Clone, Copy, PartialEq, Eq, Debug)]
pub enum ActionRow {
    Any,
    Is(u8),
    Not(u8),
    And(u8, u8),
}

// One variant for each kind number of the format. With the quantifier as a field there would be seven, and four would stand for two kinds each.
/// A property of states. `by` and `last` name action rows, the other fields earlier formula rows.
#[derive(Clone, Copy, PartialEq, Eq, Debug)]
pub enum FormulaRow {
    True,
    Not(u8),
    And(u8, u8),
    ExistsNext {
        by: u8,
        then: u8,
    },
    ExistsSilent {
        then: u8,
    },
    AllNext {
        by: u8,
        then: u8,
    },
    AllSilent {
        then: u8,
    },
    ExistsUntil {
        hold: u8,
        by: u8,
        goal: u8,
    },
    ExistsUntilBy {
        hold: u8,
        by: u8,
        last: u8,
        goal: u8,
    },
    AllUntil {
        hold: u8,
        by: u8,
        goal: u8,
    },
    AllUntilBy {
        hold: u8,
        by: u8,
        last: u8,
        goal: u8,
    },
}

impl TryFrom<ActionFields> for ActionRow {
    type Error = UnknownKind;

    ghost try_from_gives = { λ fields r. Makes fields.kind (action_row fields.kind fields.x fields.y) r };

    /// The action row of the fields; those that its kind does not use are not read.
    fn try_from(fields: ActionFields) -> Result<ActionRow, UnknownKind> {
        let ActionFields { kind, x, y } = fields;
        match kind {
            0 => Ok(ActionRow::Any),
            1 => Ok(ActionRow::Is(x)),
            2 => Ok(ActionRow::Not(x)),
            3 => Ok(ActionRow::And(x, y)),
            _ => Err(UnknownKind(kind)),
        }
    }
}

impl ActionRow {
    // This and the two below match on different fields. A list of the names would keep the three matches and add a function over it.
    /// Whether the row names an action row that is not below the limit.
    pub fn names_beyond(&self, limit: usize) -> bool
        ensures { result ≡ beyond limit (action_names self.now) }
    {
        match *self {
            ActionRow::Any | ActionRow::Is(_) => false,
            ActionRow::Not(p) => limit <= usize::from(p),
            ActionRow::And(p, q) => limit <= usize::from(p) || limit <= usize::from(q),
        }
    }
}

impl TryFrom<FormulaFields> for FormulaRow {
    type Error = UnknownKind;

    ghost try_from_gives = { λ fields r. Makes fields.kind (formula_row fields.kind fields.r1 fields.by fields.last fields.r2) r };

    /// The formula row of the fields; those that its kind does not use are not read.
    fn try_from(fields: FormulaFields) -> Result<FormulaRow, UnknownKind> {
        let FormulaFields { r1, by, r2, .. } = fields;
        match fields.kind {
            0 => Ok(FormulaRow::True),
            1 => Ok(FormulaRow::Not(r1)),
            2 => Ok(FormulaRow::And(r1, r2)),
            3 => Ok(FormulaRow::ExistsNext { by, then: r1 }),
            4 => Ok(FormulaRow::ExistsSilent { then: r1 }),
            5 => Ok(FormulaRow::AllNext { by, then: r1 }),
            6 => Ok(FormulaRow::AllSilent { then: r1 }),
            7 => Ok(FormulaRow::ExistsUntil {
                hold: r1,
                by,
                goal: r2,
            }),
            8 => Ok(FormulaRow::ExistsUntilBy {
                hold: r1,
                by,
                last: fields.last,
                goal: r2,
            }),
            9 => Ok(FormulaRow::AllUntil {
                hold: r1,
                by,
                goal: r2,
            }),
            10 => Ok(FormulaRow::AllUntilBy {
                hold: r1,
                by,
                last: fields.last,
                goal: r2,
            }),
            kind => Err(UnknownKind(kind)),
        }
    }
}

impl FormulaRow {
    /// Whether the row names a formula row that is not below the limit.
    pub fn rows_beyond(&self, limit: usize) -> bool
        ensures { result ≡ beyond limit (row_names self.now) }
    {
        match *self {
            FormulaRow::True => false,
            FormulaRow::Not(p) => limit <= usize::from(p),
            FormulaRow::And(p, q) => limit <= usize::from(p) || limit <= usize::from(q),
            FormulaRow::ExistsNext { then, .. }
            | FormulaRow::ExistsSilent { then }
            | FormulaRow::AllNext { then, .. }
            | FormulaRow::AllSilent { then } => limit <= usize::from(then),
            FormulaRow::ExistsUntil { hold, goal, .. }
            | FormulaRow::ExistsUntilBy { hold, goal, .. }
            | FormulaRow::AllUntil { hold, goal, .. }
            | FormulaRow::AllUntilBy { hold, goal, .. } => limit <= usize::from(hold)
                || limit <= usize::from(goal),
        }
    }

    /// Whether the row names an action row that is not below the limit.
    pub fn tests_beyond(&self, limit: usize) -> bool
        ensures { result ≡ beyond limit (test_names self.now) }
    {
        match *self {
            FormulaRow::True
            | FormulaRow::Not(_)
            | FormulaRow::And(_, _)
            | FormulaRow::ExistsSilent { .. }
            | FormulaRow::AllSilent { .. } => false,
            FormulaRow::ExistsNext { by, .. }
            | FormulaRow::AllNext { by, .. }
            | FormulaRow::ExistsUntil { by, .. }
            | FormulaRow::AllUntil { by, .. } => limit <= usize::from(by),
            FormulaRow::ExistsUntilBy { by, last, .. } | FormulaRow::AllUntilBy { by, last, .. } =>
                limit <= usize::from(by) || limit <= usize::from(last),
        }
    }
}
