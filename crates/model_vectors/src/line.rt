// One line of the list: a point, a part of a model, or the stored answer.
use arrayvec::ArrayVec;
use geometry::Vec3;
use model::Part;

// What a line says. The answer is a value's bits, or a refusal by 4.
#[derive(Clone, Copy, Debug, PartialEq)]
pub enum Line {
    Point(Vec3),
    Component(Part),
    Value(u64),
    Refused,
}

// The most fields of a line: a word and four numbers.
const MOST_FIELDS: usize = 5;

fn number(field: &[u8]) -> Option<u64> {
    if field.len() != 16 {
        return None;
    }
    vectors::hex16(field, 0)
}

fn float(field: &[u8]) -> Option<f64> {
    Some(float::from_bits(number(field)?))
}

// Kept: the three fields as three parameters, since a pattern names them one by one.
fn vector(x: &[u8], y: &[u8], z: &[u8]) -> Option<Vec3> {
    Some(Vec3::new(float(x)?, float(y)?, float(z)?))
}

fn input(field: &[u8]) -> Option<u32> {
    vectors::decimal_number(field)
}

// The part that a word and its numbers make.
fn part(fields: &[&[u8]]) -> Option<Part> {
    Some(match fields {
        [b"const", x] => Part::Constant(float(x)?),
        [b"sphere", x, y, z, r] => Part::Sphere(vector(x, y, z)?, float(r)?),
        [b"plane", x, y, z, d] => Part::Plane(vector(x, y, z)?, float(d)?),
        [b"min", a, b] => Part::Min(input(a)?, input(b)?),
        [b"max", a, b] => Part::Max(input(a)?, input(b)?),
        [b"add", a, b] => Part::Add(input(a)?, input(b)?),
        [b"sub", a, b] => Part::Sub(input(a)?, input(b)?),
        [b"neg", a] => Part::Neg(input(a)?),
        _ => return None,
    })
}

// What the fields of a line say.
fn meaning(fields: &[&[u8]]) -> Option<Line> {
    match fields {
        [b"point", x, y, z] => Some(Line::Point(vector(x, y, z)?)),
        [b"value", x] => Some(Line::Value(number(x)?)),
        [b"refused", b"4"] => Some(Line::Refused),
        _ => Some(Line::Component(part(fields)?)),
    }
}

// What a line says, if it has one of the forms.
pub fn read(line: &[u8]) -> Option<Line> {
    let words = line.strip_suffix(b"\n")?;
    let mut fields: ArrayVec<&[u8], MOST_FIELDS> = ArrayVec::new();
    for field in words.split(|b| *b == b' ') {
        fields.try_push(field).ok()?;
    }
    meaning(&fields)
}
