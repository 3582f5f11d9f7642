// One stored case: which operation a line names, and whether it gives what the line says.
ghost use Rattle.std.specs.Prelude.{◌≡◌};
ghost use Rattle.float_vectors.specs.Case.{compared, judged, operation_of, outcome_of, start_of, verdict_of};

#[derive(Clone, Copy, Debug, PartialEq, Eq)]
pub enum Operation {
    Sqrt,
    Floor,
    Ceil,
    Min,
    Max,
}

// The operations' names, in the order of their counts.
pub const NAMES: [&str; 5] = ["sqrt", "floor", "ceil", "min", "max"];

// A case that was run: its operation, and the bits that it gives where those that are stored differ.
#[derive(Clone, Copy, Debug, PartialEq, Eq)]
pub struct Verdict {
    pub operation: Operation,
    pub given: Result<(), u64>,
}

// The operation that a line names.
// Kept: a word counts with the space after it, so a `match` on the line's first field says less.
pub fn named_operation(line: &[u8]) -> Option<Operation>
    ensures { result ≡ operation_of line.now }
{
    if line.starts_with(b"sqrt ") {
        Some(Operation::Sqrt)
    } else if line.starts_with(b"floor ") {
        Some(Operation::Floor)
    } else if line.starts_with(b"ceil ") {
        Some(Operation::Ceil)
    } else if line.starts_with(b"min ") {
        Some(Operation::Min)
    } else if line.starts_with(b"max ") {
        Some(Operation::Max)
    } else {
        None
    }
}

impl Operation {
    ghost use Rattle.float_vectors.specs.Tally.{number_of};

    // Where the first number starts.
    fn start(self) -> usize
        ensures { result ≡ start_of self }
    {
        match self {
            Operation::Sqrt | Operation::Ceil => 5,
            Operation::Floor => 6,
            Operation::Min | Operation::Max => 4,
        }
    }

    // Which count the operation has.
    // Kept: `usize::from` is no plainer at the one call, and a contract of it is a ghost member.
    pub fn number(self) -> usize
        ensures { result ≡ number_of self }
    {
        self as usize
    }

    fn outcome(self, a: f64, b: f64) -> f64
        ensures { result ≡ outcome_of self a b }
    {
        match self {
            Operation::Sqrt => root::sqrt(a),
            Operation::Floor => float::floor(a),
            Operation::Ceil => float::ceil(a),
            Operation::Min => float::min(a, b),
            Operation::Max => float::max(a, b),
        }
    }
}

// The bits that an operation gave against those that are stored.
fn compare(given: u64, stored: u64) -> Result<(), u64>
    ensures { result ≡ compared given stored }
{
    if given == float::to_bits(float::from_bits(stored)) {
        Ok(())
    } else {
        Err(given)
    }
}

fn judge(operation: Operation, row: (u64, u64, u64)) -> Verdict
    ensures { result ≡ judged operation row }
{
    let (a, b, stored) = row;
    let outcome = operation.outcome(float::from_bits(a), float::from_bits(b));
    Verdict {
        operation,
        given: compare(float::to_bits(outcome), stored),
    }
}

// The verdict on a line, if it has the form of a case.
pub fn check_line(line: &[u8]) -> Option<Verdict>
    ensures { result ≡ verdict_of line.now }
{
    let operation = named_operation(line)?;
    let row = vectors::three_numbers(line, operation.start())?;
    Some(judge(operation, row))
}
