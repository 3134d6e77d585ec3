//! Sets of numbers as bits, 64 in a word, the lowest of the first word for 0.
ghost use Rattle.std.specs.Prelude.{◌≡◌, ◌≢◌, ℕ, ◌+◌, ◌-◌, ◌*◌, ◌<◌, ◌≤◌, ◌==◌, length, if◌then◌else◌, true, false, None, IfSome};
ghost use Rattle.std.specs.Int.{bit_at};
ghost use Rattle.number_sets.specs.Bits.{is_set, any_set, is_between, count_of};

/// Whether a number is a member.
pub fn has(words: &[u64], number: usize) -> bool
    ensures { result ≡ is_set words.now number }
{
    match words.get(number / 64) {
        Some(word) => *word & (1 << (number % 64)) != 0,
        None => false,
    }
}

/// Whether there is any member.
pub fn any(words: &[u64]) -> bool
    ensures { result ≡ any_set words.now }
{
    words.iter().any(|word| *word != 0)
}

/// How many members there are.
pub fn count(words: &[u64]) -> usize
    requires { length words.now ≤ 256 }
    ensures { result ≡ count_of (is_set words.now) 0 (64 * length words.now) }
{
    let mut count = 0;
    for word in words {
        count += word.count_ones() as usize;
    }
    count
}

// How many of the lowest numbers of a word are members.
fn count_in(word: u64, numbers: usize) -> usize
    requires { numbers < 64 }
    ensures { result ≡ count_of (λ k. bit_at word k == 1) 0 numbers }
{
    (word % (1 << numbers)).count_ones() as usize
}

/// How many members are below a number.
pub fn count_below(words: &[u64], number: usize) -> usize
    requires within { number < 64 * length words.now }
    requires few { length words.now ≤ 256 }
    ensures { result ≡ count_of (is_set words.now) 0 number }
{
    count(&words[..number / 64]) + count_in(words[number / 64], number % 64)
}

// The end before which the next number is looked for, where the one right before an end is no member: the first of its word,
// where no number of that is one.
fn ahead(words: &[u64], from: usize, end: usize) -> usize
    requires some { from < end }
    requires within { end ≤ 64 * length words.now }
    requires absent { is_set words.now (end - 1) ≡ false }
    ensures less { result < end }
    ensures from { from ≤ result }
    ensures none { (k : ℕ) → result ≤ k → k < end → is_set words.now k ≡ false }
{
    if end % 64 == 0 && words[end / 64 - 1] == 0 {
        return (end - 64).max(from);
    }
    end - 1
}

/// The greatest member from a number on before an end.
pub fn last(words: &[u64], from: usize, end: usize) -> Option<usize>
    requires within { end ≤ 64 * length words.now }
    ensures begins { IfSome result (λ number. from ≤ number) }
    ensures ends { IfSome result (λ number. number < end) }
    ensures member { IfSome result (λ number. is_set words.now number ≡ true) }
    ensures last { IfSome result (λ number. (k : ℕ) → number < k → k < end
        → is_set words.now k ≡ false) }
    ensures none { result ≡ None → (k : ℕ) → from ≤ k → k < end → is_set words.now k ≡ false }
{
    let mut upto = end;
    while from < upto {
        if has(words, upto - 1) {
            return Some(upto - 1);
        }
        upto = ahead(words, from, upto);
    }
    None
}

/// A number is a member from now on, or isn't.
pub fn put_one(words: &mut [u64], number: usize, member: bool)
    requires { number < 64 * length words.old }
    ensures here { is_set words.new number ≡ member }
    ensures others { (k : ℕ) → k ≢ number → is_set words.new k ≡ is_set words.old k }
{
    if member {
        words[number / 64] |= 1 << (number % 64);
    } else {
        words[number / 64] &= !(1 << (number % 64));
    }
}

// A word of which each bit is set, or none.
fn word_of(member: bool) -> u64
    ensures { (k : ℕ) → k < 64 → (bit_at result k == 1) ≡ member }
{
    if member { u64::MAX } else { 0 }
}

// The next numbers before an end are members from now on, or aren't: those of a word where all of them are meant, and else one.
// The answer is the number behind them.
fn put_some(words: &mut [u64], next: usize, end: usize, member: bool) -> usize
    requires some { next < end }
    requires within { end ≤ 64 * length words.old }
    ensures more { next < result }
    ensures upto { result ≤ end }
    ensures put { (k : ℕ)
        → is_set words.new k ≡ (if is_between next result k then member else is_set words.old k) }
{
    if next % 64 != 0 || end - next < 64 {
        put_one(words, next, member);
        return next + 1;
    }
    words[next / 64] = word_of(member);
    next + 64
}

/// The numbers from the first on before an end are members from now on, or aren't.
pub fn put(words: &mut [u64], first: usize, end: usize, member: bool)
    requires { end ≤ 64 * length words.old }
    ensures { (k : ℕ)
        → is_set words.new k ≡ (if is_between first end k then member else is_set words.old k) }
{
    let mut next = first;
    while next < end {
        next = put_some(words, next, end, member);
    }
}
