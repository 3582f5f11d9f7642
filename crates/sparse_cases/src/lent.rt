// The five slices: poisoned, one element of them set, and all elements answered. They are numbered from 0
// in the order of the calls.
ghost use Rattle.std.specs.Prelude.{◌≡◌, ◌≤◌, [], length, min, slice_set};
ghost use Rattle.arrayvec.specs.ArrayVec.{array_vec_len};
ghost use Rattle.sparse_cases.specs.Lent.{LentBy, Poked};

use crate::elements::Element;
use crate::output::Output;
use arrayvec::ArrayVec;
use cases::{Answer, Numbers};
use std::io;

// The most elements of a slice, and of the store.
const MOST: usize = 1024;

const MOST_STORED: usize = 8192;

// The slices that a list lends.
#[derive(Debug, Drop, PartialEq)]
pub struct Slices {
    pub kinds: ArrayVec<u8, MOST>,
    pub numbers: ArrayVec<f64, MOST>,
    pub places: ArrayVec<u32, MOST>,
    pub store: ArrayVec<f64, MOST_STORED>,
    pub corners: ArrayVec<f64, MOST>,
}

// The poison of a place: a number that follows from the seed.
fn mixed(seed: u64, at: usize) -> u64 {
    let a = seed.wrapping_add(at as u64);
    let b = a ^ (a << 13);
    let c = b ^ (b >> 7);
    c ^ (c << 17)
}

// Writes elements that belong to no job over others.
fn overwrite<T: Element>(elements: &mut [T], seed: u64)
    ensures { length elements.new ≡ length elements.old }
{
    for (at, element) in elements.iter_mut().enumerate() {
        *element = T::poison(mixed(seed, at));
    }
}

// Makes it so many elements that belong to no job, as far as there is room. Those that stand there are
// written over, and the room is not cleared first.
fn poison<T: Element, const N: usize>(elements: &mut ArrayVec<T, N>, count: usize, seed: u64)
    ensures { array_vec_len elements.new ≡ min count N }
{
    elements.truncate(count);
    overwrite(elements, seed);
    for at in elements.len()..count.min(N) {
        elements.push(T::poison(mixed(seed, at)));
    }
}

// Sets an element, if there is one at the place.
fn set<T: Element>(elements: &mut [T], place: usize, n: u64)
    ensures { elements.new ≡ slice_set elements.old place (T.element n) }
{
    // Kept: an index and no `get_mut`, of which the proof did not close.
    if place < elements.len() {
        elements[place] = T::of(n);
    }
}

// A line of elements.
fn row_of<T: Element>(elements: &[T]) -> Answer
    requires { length elements.now ≤ 160 }
{
    let mut row = Answer::new();
    for element in elements {
        row.put(element.number());
    }
    row
}

// Answers all elements, 160 to a line.
fn answer<T: Element>(rt: &impl Print, elements: &[T], output: &mut Output) -> io::Result<()> {
    for row in elements.chunks(vectors::MOST_NUMBERS) {
        output.take(rt, &row_of(row).numbers)?;
    }
    Ok(())
}

impl Slices {
    // No elements.
    pub fn new() -> Slices
        ensures { LentBy [] result }
    {
        Slices {
            kinds: ArrayVec::new(),
            numbers: ArrayVec::new(),
            places: ArrayVec::new(),
            store: ArrayVec::new(),
            corners: ArrayVec::new(),
        }
    }

    // `lend KINDS NUMBERS PLACES STORE CORNERS SEED`: slices so long, each element a poison.
    pub fn lend(&mut self, mut numbers: Numbers)
        ensures { LentBy numbers.entry.left.now self.new }
    {
        let kinds = numbers.place();
        let given = numbers.place();
        let places = numbers.place();
        let store = numbers.place();
        let corners = numbers.place();
        let seed = numbers.number();
        poison(&mut self.kinds, kinds, seed);
        poison(&mut self.numbers, given, seed.wrapping_add(0x1000));
        poison(&mut self.places, places, seed.wrapping_add(0x2000));
        poison(&mut self.store, store, seed.wrapping_add(0x3000));
        poison(&mut self.corners, corners, seed.wrapping_add(0x6000));
    }

    // The same slices, in rooms of their own.
    pub fn lent(numbers: Numbers) -> Slices
        ensures { LentBy numbers.entry.left.now result }
    {
        let mut slices = Slices::new();
        slices.lend(numbers);
        slices
    }

    // `poke SLICE PLACE VALUE`: sets one element.
    pub fn poke(&mut self, mut numbers: Numbers)
        ensures { Poked numbers.entry.left.now self.old self.new }
    {
        let slice = numbers.number();
        let place = numbers.place();
        let n = numbers.number();
        match slice {
            0 => set(&mut self.kinds, place, n),
            1 => set(&mut self.numbers, place, n),
            2 => set(&mut self.places, place, n),
            3 => set(&mut self.store, place, n),
            4 => set(&mut self.corners, place, n),
            _ => {}
        }
    }

    // Answers every element of the five slices.
    pub fn dump(&self, rt: &impl Print, output: &mut Output) -> io::Result<()> {
        answer(rt, &self.kinds, output)?;
        answer(rt, &self.numbers, output)?;
        answer(rt, &self.places, output)?;
        answer(rt, &self.store, output)?;
        answer(rt, &self.corners, output)
    }
}
