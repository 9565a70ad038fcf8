// The lent record: the host lends its one regulator record, and finds it advanced.
#![tactic(auto)]

ghost use Rattle.std.specs.Prelude.{◌≡◌, List};
ghost use Rattle.record_limits.specs.Limits.{within_of};
ghost use Rattle.claim.specs.Claim.{Kept};
ghost use Rattle.rules.specs.Ticks.{tick_of};
ghost use Rattle.rules.specs.Lists.{list_from, opening};

use input::Input;
use record::Regulator;
use rules::Reply;

// One tick of the lent record. Afterwards the record is the next one; on refusal it is as it was. The clauses are `tick`'s.
pub fn tick_lent(r: &mut Regulator, i: Input) -> Reply
    ensures each { (result ≡ (tick_of r.old i).reply) × (r.new ≡ (tick_of r.old i).next) }
    ensures lasting { within_of r.new ≡ within_of r.old }
    ensures lists { (later : List Input) → Kept (opening r.old) (list_from r.old i (record { reply = result; next = r.new }) later) }
{
    let x = regulator::tick(*r, i);
    *r = x.next;
    x.reply
}
