// The sizes of the groups and of their tables, and where a group's parts stand.
#![tactic(auto)]

ghost use Rattle.std.specs.Prelude.{◌≡◌, ◌+◌, ◌-◌, ◌*◌, ◌^◌, ◌≤◌, ◌<◌};
ghost use Rattle.tables.specs.Table.{entry};
ghost use Rattle.groups.specs.Groups.{group, group_size, most_inputs, most_members, table_steps, tables_count};
ghost use Rattle.digits.specs.Inner.{Bounded};
ghost use Rattle.groups.specs.Inner.{Cuts, PartOf, table_at};

use groups::Grouping;

// The size of group g of w inputs.
pub fn group_size(c: usize, w: usize, g: usize) -> usize
    requires { g * c ≤ w }
    ensures { result ≡ group_size c w g }
{
    c.min(w - g * c)
}

// The steps of a table of n inputs.
#[tactic(auto, using(groups::proofs::Counting::table_some))]
fn table_count(n: usize) -> usize
    requires { n ≤ most_members }
    ensures { Bounded result (table_steps n) (2 ^ most_members) }
{
    digits::power(n) as usize - n - 1
}

// The steps of the groups' tables.
pub fn tables_count(s: Grouping) -> usize
    requires { Cuts s }
    ensures { Bounded result (tables_count s.c s.inputs s.groups) (2 ^ most_members * most_inputs) }
{
    let mut n: usize = 0;
    for g in 0..s.groups {
        n += table_count(group_size(s.c, s.inputs, g));
    }
    n
}

// The value number of part t of group g.
pub fn part_value(s: Grouping, members: &[u32], g: usize, t: u32) -> u32
    requires { PartOf s members.now g t }
    ensures { result ≡ entry 1 (group s.c g members.now) (table_at s g) t }
{
    let from = g * s.c;
    let to = from + group_size(s.c, s.inputs, g);
    let at = s.p + s.squarings + g * table_count(s.c) + 1;
    tables::entry(1, &members[from..to], at as u32, t)
}
