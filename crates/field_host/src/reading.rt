// A record's counts and its cursor, from its words. Refused by 7 where the record has no job, and by 8
// where the words are those of no record.
ghost use Rattle.std.specs.Prelude.{◌≡◌, cond, eqb};
ghost use Rattle.field_host.specs.Carried.{counts_given, cursor_given, cursor_words};
ghost use Rattle.field_host.specs.Hosted.{words_number, counts_list};

use crate::record;

// The number of the cause that refuses the words, 0 for none.
fn words_number(words: &[u64; 18]) -> u32
    ensures { result ≡ words_number words.now }
{
    if words[0] == 0 {
        return 7;
    }
    if record::words_fit(words) { 0 } else { 8 }
}

// Nodes, active children, leaves so far, their points, and evaluations so far.
pub fn jisampode_counts(record_words: &[u64; 18], counts: &mut [u64; 5]) -> u32
    ensures answer { result ≡ words_number record_words.now }
    ensures counts { counts.new
        ≡ cond (eqb (words_number record_words.now) 0) (counts_list (counts_given record_words.now)) counts.old }
{
    let number = words_number(record_words);
    if number == 0 {
        let c = record::counts_given(record_words);
        let counted = c.grid;
        *counts = [
            counted.nodes,
            counted.active,
            c.leaves,
            c.sampled,
            c.evaluations,
        ];
    }
    number
}

// Where the job has come to: 0 at its end, 1 at a node's corner, 2 at a point of a node's child; then
// the node, the corner or child, and the point, each 0 where there is none.
pub fn jisampode_cursor(record_words: &[u64; 18], cursor: &mut [u64; 4]) -> u32
    ensures answer { result ≡ words_number record_words.now }
    ensures cursor { cursor.new
        ≡ cond (eqb (words_number record_words.now) 0) (cursor_words (cursor_given record_words.now)) cursor.old }
{
    let number = words_number(record_words);
    if number == 0 {
        *cursor = record::cursor_words(record::cursor_given(record_words));
    }
    number
}
