// The net of a checked sheet as a search wants it, and the phase of each bound variable: which of its values is tried first.
#![tactic(auto)]

mod choice;

ghost use Rattle.std.specs.Prelude.{◌≡◌};
ghost use Rattle.sheet.specs.Fields.{sheet_of};
ghost use Rattle.sheet.specs.Rules as Rules;
ghost use Rattle.net.specs.Sheet.{Checked, NetOf};
ghost use Rattle.net.specs.Load.{Empty};

pub use choice::one_first;
use form::Form;
use sheet::Accepted;

// The net of a sheet: decoded, rewritten, linked, and with phases.
pub fn load(sheet: &[u8], form: Form, accepted: Accepted, net: &mut [u64])
    requires { Checked (sheet_of form sheet.now) accepted.free × (accepted.gauges ≡ Rules.gauges (sheet_of form sheet.now)) × Empty form net.old }
    ensures { NetOf (sheet_of form sheet.now) net.new }
{
    net::load(sheet, form, accepted, net);
    absorb::absorb(net);
    net::link(net);
    choice::choose_phases(net);
}
