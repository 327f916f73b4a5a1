// A level of output clumping closed: the clumps and the overflow of each output, multiplied.
#![tactic(auto)]

ghost use Rattle.products.specs.Inner.{steps_in};
ghost use Rattle.clumps.specs.Levels.{products};
ghost use Rattle.row_products.specs.Inner.{Done};
ghost use Rattle.closing.specs.Inner.{closed_by, CloseAsked};

use opening::Opened;
use products::Progress;
use row_products::{Joint, Problem};

// The outputs of a level that was opened, once the values of its clumps are made: these from a cell on.
pub fn close_outputs(
    p: usize,
    t: Problem,
    o: Opened,
    to: usize,
    done: Progress,
    s: &mut [u32],
) -> Progress
    requires { CloseAsked p s.old t o to done }
    ensures { Done to result (products p (closed_by s.old t o) (steps_in s.old done.steps)) s.old s.new }
{
    let clumps = o.made + o.k;
    let rest = rows::transpose(s, o.clumps, o.k, t.m, clumps);
    rows::transpose(s, o.rest, t.n, t.m, rest);
    let joint = Joint {
        clumps,
        made: o.made,
        k: o.k,
        rest,
        ins: t.ins,
        n: t.n,
        m: t.m,
    };
    row_products::join(p, joint, to, done, s)
}
