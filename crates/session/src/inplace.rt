// The session lent by `&mut` and stepped in place, one script line a step; thin over `line::step`.
ghost use Rattle.std.specs.Prelude.{◌≡◌};
ghost use Rattle.sheet.specs.Fields.{Sheet};
ghost use Rattle.sheet.specs.Told.{fault_number};
ghost use Rattle.net.specs.Layout.{free_of};
ghost use Rattle.session.specs.Sound.{OnNet};
ghost use Rattle.session.specs.Line.{v_told, word_told};
ghost use Rattle.session.specs.Step.{Step};

use crate::script::LineBytes;
use crate::{Answer, Session, line};
use sheet::refusal::Fault;

// The session's line: the answer is returned, and the session is stored back. The net is as before after it.
pub fn step<'s, 'n, 'u, 'o>(
    session: &'s mut Session,
    bytes: LineBytes,
    net: &'n mut [u64],
    under: &'u mut [u32],
    over: &'o mut [u32],
) -> Result<Answer, Fault>
    requires { (s : Sheet) × OnNet s net.old session.old under.old over.old }
    ensures { (net.new ≡ net.old) × ((s : Sheet) → OnNet s net.old session.old under.old over.old → Step s (free_of net.old) session.old under.old over.old bytes.k bytes.a bytes.b bytes.c session.new under.new over.new (fault_number result) (v_told result) (word_told result)) }
{
    let next = line::step(*session, bytes, net, under, over)?;
    *session = next.session;
    Ok(next.answer)
}
