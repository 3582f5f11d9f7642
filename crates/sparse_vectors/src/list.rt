// What a list of calls holds, and what its lines do with it.
use cases::{Answer, Numbers};
use causes::Cause;
use model::{ModelComponent, Part};
use schedule::{Job, Slices};
use sparse_cases::{Output, RECORD_NUMBERS, Slices as Lent, Word};
use std::io;

// The most parts that a line sets, and the last place of the first of them.
const MOST_PARTS: usize = 31;

const LAST_PLACE: usize = 33;

// How many numbers a part has.
const PART_NUMBERS: usize = 5;

#[derive(Debug, Drop, PartialEq)]
pub struct List {
    // The record that calls hand on. Kept: as numbers, since a line may forge any of them, also to what
    // no record says.
    record: [u64; RECORD_NUMBERS],
    // Whether the record stands as a call left it: no line set a number of it since.
    settled: bool,
    // The parts of the next open.
    parts: [ModelComponent; 64],
    slices: Lent,
}

// The five slices, as a call takes them.
fn lend(lent: &mut Lent) -> Slices<'_> {
    Slices {
        kinds: &mut lent.kinds,
        numbers: &mut lent.numbers,
        places: &mut lent.places,
        store: &mut lent.store,
        corners: &mut lent.corners,
    }
}

impl List {
    // What is held before the first list.
    pub fn new() -> List {
        List {
            record: [0; RECORD_NUMBERS],
            settled: true,
            parts: [ModelComponent {
                part: Part::Constant(0.0),
            }; 64],
            slices: Lent::new(),
        }
    }

    // `lend KINDS NUMBERS PLACES STORE CORNERS SEED`: a new list, with a record that has no job and the
    // seed in every other field, and in every field of the parts.
    fn lend(&mut self, numbers: Numbers) {
        let seed = numbers.left.get(5).copied().unwrap_or(0);
        self.slices.lend(numbers);
        self.record.fill(seed);
        self.record[0] = 0;
        self.settled = false;
        let part = Numbers::new(&[seed; 5]).part();
        self.parts.fill(ModelComponent { part });
    }

    // `parts PLACE PART ..`: 31 parts of the next input from a place on. Those not given are constants
    // of 0.
    fn set_parts(&mut self, mut numbers: Numbers) {
        let place = numbers.place().min(LAST_PLACE);
        let given = numbers.left.len().div_ceil(PART_NUMBERS).min(MOST_PARTS);
        let parts = &mut self.parts[place..place + MOST_PARTS];
        let (read, rest) = parts.split_at_mut(given);
        numbers.parts(read);
        rest.fill(ModelComponent {
            part: Part::Constant(0.0),
        });
    }

    // `forge FIELD VALUE`: one number of the record.
    fn forge(&mut self, mut numbers: Numbers) {
        if let Some(n) = self.record.get_mut(numbers.place()) {
            *n = numbers.number();
            self.settled = false;
        }
    }

    // `dump`: what the record says that its job was opened with, GRID MIN MAX COUNT and the lengths, and
    // every element of the slices.
    fn dump(&self, rt: &impl Print, output: &mut Output) -> io::Result<()> {
        let opened = Answer::new()
            .copied(&self.record[1..13])
            .copied(&self.record[333..338]);
        output.take(rt, &opened.numbers)?;
        self.slices.dump(rt, output)
    }

    // The record that a call takes.
    fn found(&self) -> Option<Job> {
        if self.record[0] != 0 {
            Some(sparse_cases::job_of(Numbers::new(&self.record[1..])))
        } else {
            None
        }
    }

    // Keeps a record without a job, as a refused call leaves it. It is read and written anew only where a
    // line set a number of it, since that may be one that no record has.
    fn settle(&mut self) {
        if !self.settled {
            sparse_cases::settle_record(&mut self.record);
            self.settled = true;
        }
    }

    // Answers a call that left no job, by the fields of the record: as `call_answer`, of numbers.
    fn answer_without_job(&self, done: Result<(), Cause>) -> Answer {
        let mut answer = Answer::outcome(done).flag(false);
        answer.put_all(&self.record[338..343]);
        answer.put(u64::from(self.record[343] == 0));
        answer.put_all(&self.record[343..]);
        answer
    }

    // Keeps the record that a call leaves, and answers the call. Refused, it leaves the fields of a record
    // without a job as they are; a drop makes them 0.
    fn keep(&mut self, done: Result<(), Cause>, left: &Option<Job>) -> Answer {
        match left {
            Some(job) => {
                sparse_cases::put_record(true, job, &mut self.record);
                self.settled = true;
                sparse_cases::call_answer(done, true, job)
            }
            None => {
                if done.is_ok() {
                    self.record.fill(0);
                    self.settled = true;
                } else {
                    self.settle();
                }
                self.answer_without_job(done)
            }
        }
    }

    // `open GRID MIN MAX COUNT`
    fn open(&mut self, mut numbers: Numbers) -> Answer {
        let mut record = self.found();
        let input = sparse_cases::input_of(&mut numbers, self.parts);
        let done = sparse_field::open(&mut record, input, &mut lend(&mut self.slices));
        self.keep(done, &record)
    }

    // `step BUDGET`
    fn step(&mut self, mut numbers: Numbers) -> Answer {
        let mut record = self.found();
        let budget = numbers.number();
        let done = sparse_field::step(&mut record, budget, &mut lend(&mut self.slices));
        self.keep(done, &record)
    }

    // `drop`
    fn drop_job(&mut self) -> Answer {
        let mut record = self.found();
        sparse_field::drop(&mut record, &mut lend(&mut self.slices));
        self.keep(Ok(()), &record)
    }

    // Does what a word says.
    pub fn take(
        &mut self,
        rt: &impl Print,
        word: Word,
        numbers: Numbers,
        output: &mut Output,
    ) -> io::Result<()> {
        let answer = match word {
            Word::Open => self.open(numbers),
            Word::Step => self.step(numbers),
            Word::Drop => self.drop_job(),
            Word::Dump => return self.dump(rt, output),
            Word::Lend => {
                self.lend(numbers);
                return Ok(());
            }
            Word::Parts => {
                self.set_parts(numbers);
                return Ok(());
            }
            Word::Forge => {
                self.forge(numbers);
                return Ok(());
            }
            Word::Poke => {
                self.slices.poke(numbers);
                return Ok(());
            }
            Word::Full => {
                output.whole = true;
                return Ok(());
            }
        };
        output.take(rt, &answer.numbers)
    }
}
