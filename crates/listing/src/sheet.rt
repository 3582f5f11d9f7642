// A job's listing, line by line.
ghost use Rattle.std.specs.Prelude.{◌≡◌, ◌+◌, ◌*◌, ◌<◌, ◌≤◌, true, length, get_or};
ghost use Rattle.listing.specs.Inner.Lengths.{Sizes};
ghost use Rattle.listing.specs.Listing.{bits_in, values_text, leaf_line, constant_line};
ghost use Rattle.listing.specs.Listing.{leaf_values};
ghost use Rattle.listing.specs.Written.{all_placed};

use crate::text::Text;
use forms::Sink;
use grid::Kind;
use schedule::{Counts, View};

// How a listing is laid out: its counts, how many children it has in all, how many to a node, how
// many points to a leaf, the bits of a NaN leaf value; and the lent slices that have its children.
#[derive(Clone, Copy, Debug)]
pub struct Sheet<'a> {
    pub counts: Counts,
    pub total: usize,
    pub children: usize,
    pub points: usize,
    pub nan: u64,
    pub slices: View<'a>,
    ghost sizes: { Sizes total children points },
    ghost all_kinds: { total ≤ length slices.kinds.now },
    ghost all_numbers: { total ≤ length slices.numbers.now },
    ghost all_places: { total ≤ length slices.places.now },
    ghost placed: { all_placed points (length slices.store.now) slices.kinds.now slices.places.now total 0 ≡ true },
}

impl<'a> Sheet<'a> {
    ghost use Rattle.listing.specs.Inner.Sheets.{sheet_line, sheet_lines};

    // The values of the leaf at a place.
    fn leaf(&self, j: usize) -> &[f64]
        requires inside { j < self.now.total }
        requires leaf { get_or self.now.slices.kinds.now j 0 ≡ 2 }
        ensures { let place = get_or self.now.slices.places.now j 0 in
            result.now ≡ leaf_values self.now.points self.now.slices.store.now place }
    {
        let from = self.slices.places[j] as usize * self.points;
        &self.slices.store[from..from + self.points]
    }

    // Puts the line of the child at a place.
    fn put_child<S: Sink>(&self, j: usize, sink: &mut S)
        requires inside { j < self.now.total }
        requires room { S.room sink.old (length (sheet_line self.now j)) }
        ensures { S.puts sink.old (sheet_line self.now j) sink.new }
    {
        let v = (j / self.children) as u64;
        let c = (j % self.children) as u64;
        match Kind::from(self.slices.kinds[j]) {
            Kind::Empty => {}
            Kind::Active => put_constant(v, c, self.slices.numbers[j], sink),
            Kind::Leaf => put_leaf(self.nan, v, c, self.leaf(j), sink),
        }
    }

    // Puts the lines of all children.
    fn put_children<S: Sink>(&self, sink: &mut S)
        requires { S.room sink.old (length (sheet_lines self.now)) }
        ensures { S.puts sink.old (sheet_lines self.now) sink.new }
    {
        for j in 0..self.total {
            self.put_child(j, sink);
        }
    }
}

impl<'a> Text for Sheet<'a> {
    ghost use Rattle.listing.specs.Inner.Sheets.{sheet_listing};

    ghost bytes = { sheet_listing };

    fn put<S: Sink>(&self, sink: &mut S) {
        let counts = self.counts;
        let numbers = [
            counts.grid.nodes,
            counts.grid.active,
            counts.leaves,
            counts.sampled,
            counts.evaluations,
        ];
        forms::put_form(b"(done D D D D D)\n", &numbers, sink);
        self.put_children(sink);
    }
}

// A leaf value's bits, where a NaN has those given.
#[tactic(auto, unfolding(crate::specs::Listing::bits_in))]
fn bits_in(nan: u64, x: f64) -> u64
    ensures { result ≡ bits_in nan x }
{
    if float::is_nan(x) {
        nan
    } else {
        float::to_bits(x)
    }
}

// Puts values, each after a space.
fn put_values<S: Sink>(nan: u64, values: &[f64], sink: &mut S)
    requires { S.room sink.old (length (values_text nan values.now)) }
    ensures { S.puts sink.old (values_text nan values.now) sink.new }
{
    for x in values {
        sink.put_byte(b' ');
        forms::put_hex(bits_in(nan, *x), sink);
    }
}

// Puts a leaf's line.
fn put_leaf<S: Sink>(nan: u64, v: u64, c: u64, values: &[f64], sink: &mut S)
    requires { S.room sink.old (length (leaf_line nan v c values.now)) }
    ensures { S.puts sink.old (leaf_line nan v c values.now) sink.new }
{
    forms::put_form(b"(leaf D D", &[v, c], sink);
    put_values(nan, values, sink);
    forms::put_form(b")\n", &[], sink);
}

// Puts a constant's line.
fn put_constant<S: Sink>(v: u64, c: u64, x: f64, sink: &mut S)
    requires { S.room sink.old (length (constant_line v c x)) }
    ensures { S.puts sink.old (constant_line v c x) sink.new }
{
    forms::put_form(b"(constant D D H)\n", &[v, c, float::to_bits(x)], sink);
}
