//! The parts of a job as parts of its machine.
ghost use Rattle.std.specs.Prelude.{◌≡◌, IfOk};
ghost use Rattle.answer.specs.Decoded.{RowAt, TableRows, MailboxOf};

use std::alloc::{AllocError, Global};
use systems::actions::ActionSet;
use systems::mailbox::Mailbox;
use systems::row::Row;

/// The row of five bytes: source, action and target.
fn row_of(bytes: [u8; 5]) -> Row
    ensures { RowAt bytes 0 result }
{
    let [s1, s0, action, t1, t0] = bytes;
    Row {
        source: usize::from(u16::from_be_bytes([s1, s0])),
        action,
        target: usize::from(u16::from_be_bytes([t1, t0])),
    }
}

/// The rows of a table's body, five bytes to each.
pub fn table_rows(heap: Global, body: &[u8]) -> Result<Vec<Row>, AllocError>
    ensures { IfOk result (λ v. TableRows body.now v.items) }
{
    let (rows, _) = body.as_chunks::<5>();
    rows.iter().map(|bytes| row_of(*bytes)).collect(heap)
}

/// The mailbox of its body, and the actions that it shares with the table; nothing if the body is not 35 bytes.
pub fn mailbox_of(body: &[u8]) -> Option<(Mailbox, ActionSet)>
    ensures { MailboxOf body.now result }
{
    let [capacity, put, take, set @ ..] = body else {
        return None;
    };
    let shared = ActionSet::try_from(set).ok()?;
    let mailbox = Mailbox {
        capacity: *capacity,
        put: *put,
        take: *take,
    };
    Some((mailbox, shared))
}
