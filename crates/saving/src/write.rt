// Document 01, '01 load', the other way round: a load line of numbers, written into a lent buffer.
// Writers take the whole buffer and a place in it, as those of `replies` do: the caller lends it across the C interface.
ghost use Rattle.std.specs.Prelude.{◌≡◌, [], ◌++◌, ◌+◌, ◌*◌, ◌<◌, ◌≤◌, ◌^◌, length, take};
ghost use Rattle.theory.specs.Lists.{nth};
ghost use Rattle.operations.specs.Given.{numbers_given};
ghost use Rattle.frames.specs.Runs.{run_digits};
ghost use Rattle.lines.specs.Layout.{count_width, cost_width, pair_width, size_field};
ghost use Rattle.lines.specs.Text.{pair_run, pairs_digits, text_shape, head_digits, load_digits, line_bytes, load_bytes};
ghost use Rattle.replies.specs.Wrote.{Wrote};

use lines::field::Field;
use lines::kind::Kind;
use lines::request::Load;
use operations::given_study::GivenStudy;
use replies::write;
use tables::block::Pair;
use units::Scale;

// How many characters a load line has, by how many sizes, choice costs, pairs and pair costs.
// A sum of widths and counts: it is asked before the line is written, so that there is nothing yet to take the length of.
pub fn line_length(n: usize, choices: usize, m: usize, entries: usize) -> usize
    requires { (n < 2 ^ 32) × (choices < 2 ^ 32) × (m < 2 ^ 32) × (entries < 2 ^ 32) }
    ensures { result ≡ 2 * line_bytes n choices m entries }
{
    let head = Kind::WIDTH + Field::COUNT_WIDTH + Load::SCALE_WIDTH;
    let trains = Field::COUNT_WIDTH * n + Load::COST_WIDTH * choices;
    let pairs = Field::COUNT_WIDTH + Load::PAIR_WIDTH * m + Load::COST_WIDTH * entries;
    2 * (head + trains + pairs)
}

// Writes numbers as fields of `width` bytes, from character `at` on, and answers where the next begins.
fn write_run(reply: &mut [u8], at: usize, width: usize, list: &[u64]) -> usize
    requires { at + 2 * (width * length list.now) ≤ length reply.old }
    ensures { Wrote reply.old (take at reply.old ++ run_digits width (length list.now) (nth list.now) []) reply.new result }
{
    let mut end = at;
    for v in list {
        end = write::put_field(reply, end, width, *v);
    }
    end
}

// Writes a pair: its trains, and its costs.
fn write_pair(reply: &mut [u8], at: usize, pair: Pair, costs: &[u64]) -> usize
    requires { at + 2 * (pair_width + cost_width * length costs.now) ≤ length reply.old }
    ensures { Wrote reply.old (take at reply.old ++ pair_run pair.first pair.second (length costs.now) (nth costs.now) []) reply.new result }
{
    let first_end = write::put_field(reply, at, Field::COUNT_WIDTH, pair.first as u64);
    let second_end = write::put_field(reply, first_end, Field::COUNT_WIDTH, pair.second as u64);
    write_run(reply, second_end, Load::COST_WIDTH, costs)
}

// Writes every pair, from character `at` on.
fn write_pairs(reply: &mut [u8], at: usize, given: GivenStudy<'_>) -> usize
    requires { at + 2 * (pair_width * length given.numbers.now.pairs.items + cost_width * length given.numbers.now.entries.items) ≤ length reply.old }
    ensures { Wrote reply.old (take at reply.old ++ pairs_digits (text_shape (numbers_given given.entry.numbers.now)) given.entry.numbers.now.entries.items 0 (length given.entry.numbers.now.pairs.items) []) reply.new result }
{
    let sizes = given.numbers.sizes.as_slice();
    let entries = given.numbers.entries.as_slice();
    let mut end = at;
    let mut start = 0;
    for pair in given.numbers.pairs.as_slice() {
        let count = (sizes[pair.first] * sizes[pair.second]) as usize;
        end = write_pair(reply, end, *pair, &entries[start..start + count]);
        start += count;
    }
    end
}

// Writes kind, n, s and sizes to the front of the buffer.
fn write_head(reply: &mut [u8], scale: Scale, sizes: &[u64]) -> usize
    requires { 2 * (size_field.at + count_width * length sizes.now) ≤ length reply.old }
    ensures { Wrote reply.old (head_digits scale sizes.now []) reply.new result }
{
    let kind_end = write::put_field(reply, 0, Kind::WIDTH, Kind::Load.into());
    let trains_end = write::put_field(reply, kind_end, Field::COUNT_WIDTH, sizes.len() as u64);
    let scale_end = write::put_field(reply, trains_end, Load::SCALE_WIDTH, scale.number());
    write_run(reply, scale_end, Field::COUNT_WIDTH, sizes)
}

// Writes a load line of these numbers to the front of a buffer that holds it, and answers how many characters it has.
pub fn write_load(reply: &mut [u8], given: GivenStudy<'_>) -> usize
    requires { 2 * load_bytes (numbers_given given.numbers.now) ≤ length reply.old }
    ensures { Wrote reply.old (load_digits (numbers_given given.entry.numbers.now)) reply.new result }
{
    let head_end = write_head(reply, given.numbers.scale, given.numbers.sizes.as_slice());
    let choices = given.numbers.choices.as_slice();
    let choices_end = write_run(reply, head_end, Load::COST_WIDTH, choices);
    let m = given.numbers.pairs.len() as u64;
    let count_end = write::put_field(reply, choices_end, Field::COUNT_WIDTH, m);
    write_pairs(reply, count_end, given)
}
