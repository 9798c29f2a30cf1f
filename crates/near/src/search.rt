// The messages found on a curve, symbol by symbol. The one curve is shifted in place: to choose the symbol c at x^i, y becomes y + c x^i, and
// coming back y - c x^i, which restores every byte.
ghost use Rattle.std.specs.Prelude.{◌≡◌, suc, ◌+◌, ◌<◌, ◌≤◌, length, take};
ghost use Rattle.field.specs.Symbols.{symbols};
ghost use Rattle.poly.specs.Buffers.{Decided};
ghost use Rattle.near.specs.Lists.{Spelt, agreements as agreementsOf, polynomial};
ghost use Rattle.near.specs.Search.{some?, lowest as lowestOf};
ghost use Rattle.near.specs.Work.{curve_of, slice_of, RootAt, Laid, Tries, Lifted, Shifted, Received, Room, Wrote, Leaves};
ghost use Rattle.near.specs.Work.{plan_of, found_on, Runs, Ran};

use field::Symbol;
use rows::{Request, Shape};

// What a search goes by: the shape of its curve, the symbols of a message and the agreements wanted.
#[derive(Clone, Copy)]
pub struct Plan {
    pub shape: Shape,
    pub k: usize,
    pub t: usize,
}

// The curve as level i reads it: at x^i y for y.
#[derive(Clone, Copy)]
struct Level<'a> {
    curve: &'a [u8],
    shape: Shape,
    i: usize,
    ghost laid: { Laid shape curve.now },
    ghost i_le_u: { i ≤ shape.u },
}

impl Level<'_> {
    // The coefficient of x^v in what slot j becomes.
    fn symbol_at(&self, v: usize, j: usize) -> Symbol
        requires { j ≤ self.now.shape.l }
        ensures { result.value ≡ (slice_of self.now.shape self.now.curve.now self.now.i v j).byte }
    {
        // In two steps: with checked_sub the search takes a tenth longer.
        let lift = self.i * j;
        if v < lift {
            return Symbol::ZERO;
        }
        let e = v - lift;
        if self.shape.width < e {
            return Symbol::ZERO;
        }
        let at = self.shape.place(0, j, e);
        Symbol {
            value: self.curve[at],
        }
    }

    // Whether x^v stands anywhere in the curve.
    fn stands(&self, v: usize) -> bool
        ensures { result ≡ some? (symbols self.now.shape.p) (suc self.now.shape.l) (slice_of self.now.shape self.now.curve.now self.now.i v) }
    {
        (0..self.shape.l + 1).any(|j| self.symbol_at(v, j) != Symbol::ZERO)
    }

    // The highest power of x that divides it.
    fn lowest(&self) -> usize
        ensures { result ≡ lowestOf (symbols self.now.shape.p) (suc self.now.shape.l) (suc self.now.shape.width) self.now.i
            (curve_of self.now.shape self.now.curve.now) }
    {
        let most = self.shape.width + 1;
        (0..most).find(|&v| self.stands(v)).unwrap_or(most)
    }

    // Whether c is a root of what is left at x = 0, by Horner's rule: these coefficients are worked out one by one and lie in no slice,
    // which poly::value_at takes.
    fn fits(&self, low: usize, c: u8) -> bool
        requires { c < self.now.shape.p }
        ensures { Decided result (RootAt self.now.shape self.now.curve.now self.now.i low c) }
    {
        let p = self.shape.p;
        let x = Symbol { value: c };
        let mut sum = Symbol::ZERO;
        for j in (0..self.shape.l + 1).rev() {
            sum = self.symbol_at(low, j).plus_product(x, sum, p);
        }
        sum == Symbol::ZERO
    }
}

// Slot q takes c x^i times the slot above. These three write the curve, so it is lent to them beside its shape, and no struct holds it.
fn take_above(curve: &mut [u8], shape: Shape, i: usize, c: Symbol, q: usize)
    requires tries { Tries shape i c.value curve.old }
    requires q_lt_l { q < shape.l }
    ensures { Lifted shape i c.value q (suc q) curve.old curve.new }
{
    let target = shape.place(0, q, i);
    let source = shape.place(0, q + 1, 0);
    let len = shape.slot() - i;
    field::subtract(curve, target, source, len, c.negative(shape.p), shape.p);
}

// Slots j to l - 1 each take c x^i times the slot above, from the lowest up.
fn raise(curve: &mut [u8], shape: Shape, i: usize, c: Symbol, j: usize)
    requires tries { Tries shape i c.value curve.old }
    requires j_lt_l { j < shape.l }
    ensures { Lifted shape i c.value j shape.l curve.old curve.new }
{
    for q in j..shape.l {
        take_above(curve, shape, i, c, q);
    }
}

// y becomes y + c x^i, by Horner's rule from the highest power of y down.
fn shift(curve: &mut [u8], shape: Shape, i: usize, c: Symbol)
    requires { Tries shape i c.value curve.old }
    ensures { Shifted shape i c.value curve.old curve.new }
{
    for j in (0..shape.l).rev() {
        raise(curve, shape, i, c, j);
    }
}

// A search for the messages near the word received at the points. The curve, the symbols chosen and the messages are lent to its methods
// one by one: what a call leaves of each of them is said apart, and `left` and `count` change with each call.
#[derive(Clone, Copy)]
struct Search<'a> {
    plan: Plan,
    points: &'a [u8],
    word: &'a [u8],
    ghost received: { Received plan points.now word.now },
}

impl Search<'_> {
    ghost use Rattle.near.specs.Sought.{task, after, with, kept, Searches};

    // At how many places the message agrees.
    fn agreements(&self, message: &[u8]) -> usize
        requires { Spelt self.now.plan.shape.p self.now.plan.k message.now }
        ensures { result ≡ agreementsOf (task self.now) (length self.now.points.now) (polynomial (task self.now) message.now) }
    {
        let p = self.plan.shape.p;
        self.points
            .iter()
            .zip(self.word)
            .filter(|&(&a, &s)| poly::value_at(message, a, p) == s)
            .count()
    }

    // The message goes to the list where it has enough agreements.
    fn keep(&self, chosen: &[u8], messages: &mut [u8], count: usize) -> usize
        requires spelt { Spelt self.now.plan.shape.p self.now.plan.k (take self.now.plan.k chosen.now) }
        requires room { Room self.now.plan count (kept self.now chosen.now) messages.old }
        ensures { Wrote self.now.plan count (kept self.now chosen.now) messages.old messages.new result }
    {
        let k = self.plan.k;
        let message = &chosen[..k];
        if self.agreements(message) < self.plan.t {
            return count;
        }
        let at = count * k;
        poly::copy(&mut messages[at..at + k], message);
        count + 1
    }

    // Each next symbol is tried, and each fitting one opens the next level; `left` symbols are still to choose.
    #[cycle(level_open)]
    fn level(
        &self,
        curve: &mut [u8],
        chosen: &mut [u8],
        messages: &mut [u8],
        left: usize,
        count: usize,
    ) -> usize
        requires searches { Searches self.now curve.old chosen.old left }
        requires room { Room self.now.plan count (after self.now curve.old chosen.old left) messages.old }
        ensures { Leaves self.now.plan left count (after self.now curve.old chosen.old left)
            curve.old curve.new chosen.old chosen.new messages.old messages.new result }
    {
        let shape = self.plan.shape;
        let i = self.plan.k - left;
        let low = Level { curve, shape, i }.lowest();
        let mut found = count;
        for c in 0..shape.p {
            let level = Level { curve, shape, i };
            if level.fits(low, c) {
                found = self.open(curve, chosen, messages, left, c, found);
            }
        }
        found
    }

    // The messages that go on with c: the last symbol makes one of them, any other opens the next level on the shifted curve.
    #[cycle(level_open)]
    fn open(
        &self,
        curve: &mut [u8],
        chosen: &mut [u8],
        messages: &mut [u8],
        left: usize,
        c: u8,
        count: usize,
    ) -> usize
        requires searches { Searches self.now curve.old chosen.old left }
        requires c_lt_p { c < self.now.plan.shape.p }
        requires room { Room self.now.plan count (with self.now curve.old chosen.old left c) messages.old }
        ensures { Leaves self.now.plan left count (with self.now curve.old chosen.old left c)
            curve.old curve.new chosen.old chosen.new messages.old messages.new result }
    {
        let shape = self.plan.shape;
        let i = self.plan.k - left;
        let symbol = Symbol { value: c };
        chosen[i] = c;
        if left == 1 {
            return self.keep(chosen, messages, count);
        }
        shift(curve, shape, i, symbol);
        let found = self.level(curve, chosen, messages, left - 1, count);
        shift(curve, shape, i, symbol.negative(shape.p));
        found
    }
}

// The plan of a request.
fn plan_of(request: &Request, t: u8) -> Plan
    requires numbers { (1 ≤ request.now.k) × (request.now.m ≤ request.now.l) }
    requires count { length request.now.points.now ≤ request.now.p }
    ensures { result ≡ plan_of request.now.p (length request.now.points.now) request.now.k request.now.m request.now.l t }
{
    Plan {
        shape: request.shape(),
        k: usize::from(request.k),
        t: usize::from(t),
    }
}

// The search from the first symbol on.
pub fn run(request: &Request, t: u8, curve: &mut [u8], messages: &mut [u8]) -> u8
    requires bounds { (request.now.m ≤ request.now.l) × (length request.now.points.now ≤ request.now.p) }
    requires runs { Runs (plan_of request.now.p (length request.now.points.now) request.now.k request.now.m request.now.l t)
        request.now.points.now request.now.word.now curve.old messages.old }
    ensures { Ran request.now.k (found_on (plan_of request.now.p (length request.now.points.now) request.now.k request.now.m request.now.l t)
        request.now.points.now request.now.word.now curve.old) messages.old messages.new result }
{
    let mut chosen = [0u8; 32];
    let plan = plan_of(request, t);
    let search = Search {
        plan,
        points: request.points,
        word: request.word,
    };
    search.level(curve, &mut chosen, messages, plan.k, 0) as u8
}
