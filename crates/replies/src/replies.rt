// Document 01, 'Replies'. Each writer asks for room in the buffer that its caller lends: a struct around that would say of its field what `Wrote` says of the buffer.
ghost use Rattle.std.specs.Prelude.{◌≡◌, [], ◌++◌, ◌+◌, ◌*◌, ◌<◌, ◌≤◌, length, take};
ghost use Rattle.tables.specs.Block.{max_trains};
ghost use Rattle.reasons.specs.Reasons.{reason_number, reason_train};
ghost use Rattle.units.specs.Units.{number_of_points};
ghost use Rattle.frames.specs.Fields.{field_digits};
ghost use Rattle.lines.specs.Layout.{kind_width, count_width};
ghost use Rattle.lines.specs.Text.{choices_digits, record_bytes};
ghost use Rattle.replies.specs.Replies.{choice_width, longest_fixed, refusal_reply, reply_kind, bound_reply, certify_reply, ending, shown_cost, shown_choice, plan_digits, search_reply, reason_reply, numbers_digits, order_reply, screen_reply, record_reply};
ghost use Rattle.replies.specs.Wrote.{Wrote};

use crate::write;
use certificates::certify::Ceiling;
use lines::field::Field;
use lines::kind::Kind;
use reasons::Reason;
use refusals::Refusal;
use search::answer::Found;
use tables::block;
use tables::held_study::HeldStudy;
use units::Points;

// How many bytes a choice has in the reply to a search.
const CHOICE_WIDTH: usize = 1;
// The first byte of the reply to a declined line.
pub const REFUSAL_BYTE: u64 = 255;
// What is added to a kind's number, in the first byte of its reply.
const REPLY_KIND: u64 = 128;
// What stands for the cost where no plan was found: six bytes FF, as the reply has it.
const NO_COST: u64 = 281474976710655;
// What stands for a choice where no plan was found: a byte FF, as the reply has it. `shown_choice` makes it of the Option of a plan.
const NO_CHOICE: u64 = 255;
// What stands for the partner where none is named: a byte FF, as the reply has it.
const NO_PARTNER: u64 = 255;

// Writes the reply to a declined line.
#[tactic(auto, unfolding(crate::specs::Replies::refusal_reply))]
pub fn write_refusal(reply: &mut [u8], r: Refusal) -> usize
    requires { longest_fixed ≤ length reply.old }
    ensures { Wrote reply.old (refusal_reply r) reply.new result }
{
    write::put_fields(reply, &[(1, REFUSAL_BYTE), (1, u8::from(r).into())])
}

// The first byte of the reply to a line of this kind.
fn reply_kind(kind: Kind) -> u64
    ensures { result ≡ reply_kind kind }
{
    REPLY_KIND + u64::from(kind)
}

// Writes the constant and the published bound of a study, after an operation of this kind.
#[tactic(auto, unfolding(crate::specs::Replies::bound_reply))]
pub fn write_bound(reply: &mut [u8], kind: Kind, study: HeldStudy<'_>) -> usize
    requires { longest_fixed ≤ length reply.old }
    ensures { Wrote reply.old (bound_reply kind study.entry.numbers.now) reply.new result }
{
    let constant = block::constant(study.numbers);
    let bound = bounds::published(study);
    let fields = [
        (1, reply_kind(kind)),
        (Field::FIGURE_WIDTH, constant.into()),
        (Field::FIGURE_WIDTH, bound.into()),
    ];
    write::put_fields(reply, &fields)
}

// Writes what a certificate shows.
#[tactic(auto, unfolding(crate::specs::Replies::certify_reply))]
pub fn write_certify(reply: &mut [u8], full: u64, c: Ceiling) -> usize
    requires { longest_fixed ≤ length reply.old }
    ensures { Wrote reply.old (certify_reply full c) reply.new result }
{
    let fields = [
        (1, reply_kind(Kind::Certify)),
        (1, u64::from(c.reached)),
        (8, c.weighted),
        (3, full),
    ];
    write::put_fields(reply, &fields)
}

// The cost that a search shows.
fn shown_cost(f: &Found) -> u64
    ensures { result ≡ shown_cost f.now }
{
    f.best.map_or(NO_COST, |best| best.cost.into())
}

// The choice of train i that a search shows.
fn shown_choice(f: &Found, i: usize) -> u64
    requires { i < max_trains }
    ensures { result ≡ shown_choice f.now i }
{
    f.best.map_or(NO_CHOICE, |best| best.plan[i].into())
}

// Writes the choices of n trains, from character `from` on.
// Trains and their number are bounded for one call: the loop counts them.
fn write_plan(reply: &mut [u8], from: usize, n: usize, f: &Found) -> usize
    requires { (from + 2 * (choice_width * n) ≤ length reply.old) × (n ≤ max_trains) }
    ensures { Wrote reply.old (take from reply.old ++ plan_digits n f.now) reply.new result }
{
    let mut at = from;
    for i in 0..n {
        at = write::put_field(reply, at, CHOICE_WIDTH, shown_choice(f, i));
    }
    at
}

// The reply's byte for how a search ended: spent, with a plan, or without one.
fn ending(f: &Found) -> u64
    ensures { result ≡ ending f.now }
{
    match (f.ended, f.best.is_some()) {
        (false, _) => 0,
        (true, true) => 1,
        (true, false) => 2,
    }
}

// Writes what a search of n trains found.
pub fn write_search(reply: &mut [u8], n: usize, f: Found) -> usize
    requires { (longest_fixed ≤ length reply.old) × (n ≤ max_trains) }
    ensures { Wrote reply.old (search_reply n f) reply.new result }
{
    let fields = [
        (1, reply_kind(Kind::Search)),
        (1, ending(&f)),
        (4, f.count),
        (Field::FIGURE_WIDTH, shown_cost(&f)),
    ];
    let end = write::put_fields(reply, &fields);
    write_plan(reply, end, n, &f)
}

// The reply's byte for a reason.
fn reason_number(r: Reason) -> u64
    ensures { result ≡ reason_number r }
{
    match r {
        Reason::Neither => 0,
        Reason::Own => 1,
        Reason::Partner(_) => 2,
    }
}

// The reply's byte for the partner that a reason names.
fn reason_train(r: Reason) -> u64
    ensures { result ≡ reason_train r }
{
    match r {
        Reason::Partner(train) => train as u64,
        Reason::Neither | Reason::Own => NO_PARTNER,
    }
}

// Writes why a choice is out.
#[tactic(auto, unfolding(crate::specs::Replies::reason_reply))]
pub fn write_reason(reply: &mut [u8], r: Reason) -> usize
    requires { longest_fixed ≤ length reply.old }
    ensures { Wrote reply.old (reason_reply r) reply.new result }
{
    let fields = [
        (1, reply_kind(Kind::Explain)),
        (1, reason_number(r)),
        (1, reason_train(r)),
    ];
    write::put_fields(reply, &fields)
}

// Writes numbers of trains or of choices, from character `from` on.
fn write_numbers(reply: &mut [u8], from: usize, numbers: &[u64]) -> usize
    requires { from + 2 * (count_width * length numbers.now) ≤ length reply.old }
    ensures { Wrote reply.old (take from reply.old ++ numbers_digits numbers.now) reply.new result }
{
    let mut at = from;
    for k in 0..numbers.len() {
        at = write::put_field(reply, at, Field::COUNT_WIDTH, numbers[k]);
    }
    at
}

// Writes an order of trains.
#[tactic(auto, unfolding(crate::specs::Replies::order_reply))]
pub fn write_order(reply: &mut [u8], trains: &[u64]) -> usize
    requires { (longest_fixed ≤ length reply.old) × (length trains.now ≤ max_trains) }
    ensures { Wrote reply.old (order_reply trains.now) reply.new result }
{
    let end = write::put_fields(reply, &[(1, reply_kind(Kind::Order))]);
    write_numbers(reply, end, trains)
}

// Writes the kind, n and the choices of a plan.
fn write_choices(reply: &mut [u8], kind: Kind, choices: &[u64]) -> usize
    requires { (longest_fixed ≤ length reply.old) × (length choices.now ≤ max_trains) }
    ensures { Wrote reply.old (field_digits kind_width (reply_kind kind) (choices_digits choices.now [])) reply.new result }
{
    let fields = [
        (Kind::WIDTH, reply_kind(kind)),
        (Field::COUNT_WIDTH, choices.len() as u64),
    ];
    let end = write::put_fields(reply, &fields);
    write_numbers(reply, end, choices)
}

// Writes the choices of a record that a screen shows.
#[tactic(auto, unfolding(crate::specs::Replies::screen_reply))]
pub fn write_screen(reply: &mut [u8], choices: &[u64]) -> usize
    requires { (longest_fixed ≤ length reply.old) × (length choices.now ≤ max_trains) }
    ensures { Wrote reply.old (screen_reply choices.now) reply.new result }
{
    write_choices(reply, Kind::Screen, choices)
}

// How many characters the reply with a record of n trains has.
pub fn record_length(n: usize) -> usize
    requires { n ≤ max_trains }
    ensures { result ≡ 2 * (kind_width + record_bytes n) }
{
    2 * (Kind::WIDTH + Field::COUNT_WIDTH + Field::COUNT_WIDTH * n + 2 * Field::FIGURE_WIDTH)
}

// Writes a record, in reply to a line of this kind.
pub fn write_record(
    reply: &mut [u8],
    kind: Kind,
    choices: &[u64],
    bound: Points,
    cost: Points,
) -> usize
    requires { (longest_fixed ≤ length reply.old) × (length choices.now ≤ max_trains) × (2 * (kind_width + record_bytes (length choices.now)) ≤ length reply.old) }
    ensures { Wrote reply.old (record_reply kind choices.now (number_of_points bound) (number_of_points cost)) reply.new result }
{
    let behind = write_choices(reply, kind, choices);
    let end = write::put_field(reply, behind, Field::FIGURE_WIDTH, bound.into());
    write::put_field(reply, end, Field::FIGURE_WIDTH, cost.into())
}
