//! What a set of small numbers can be asked, and how it changes.
ghost use Rattle.std.specs.Prelude.{◌≡◌, ℕ, ◌<◌, ◌≤◌, min, false, if◌then◌else◌, ◌==◌, nat_lt};
ghost use Rattle.plan.specs.Sums.{size, union, with, without};
ghost use Rattle.graph.specs.Read.{set_of};
ghost use Rattle.graph.specs.Split.{most_nodes};

use crate::set::{MOST_NODES, NumberSet};

impl NumberSet {
    /// The set with no member.
    pub fn empty() -> NumberSet
        ensures { set_of result ≡ (λ _. false) }
    {
        NumberSet {
            marks: [false; MOST_NODES],
        }
    }

    /// The numbers below `n` that pass a test; those that are too large for any set are left out.
    pub fn from_fn<F: Fn(usize) -> bool>(n: usize, test: F) -> NumberSet
        requires { (x : ℕ) → x < min n most_nodes → F.pre test x }
        ensures tested { (x : ℕ) → x < min n most_nodes → F.post test x (set_of result x) }
        ensures beyond { (x : ℕ) → min n most_nodes ≤ x → set_of result x ≡ false }
    {
        // A loop: by `array::from_fn`, which goes past `n`, the set of a small plan takes up to forty times as long.
        let mut marks = [false; MOST_NODES];
        for x in 0..n.min(MOST_NODES) {
            marks[x] = test(x);
        }
        NumberSet { marks }
    }

    /// Whether `x` is a member.
    // A test of the index, here and below: what `get_mut` promises says nothing of the mark, and to read one `get` is no plainer.
    pub fn contains(&self, x: usize) -> bool
        ensures { result ≡ set_of self.now x }
    {
        x < MOST_NODES && self.marks[x]
    }

    /// Makes `x` a member; `false`, and nothing changed, where it is too large for any set.
    // A truth value and no `Result`: who puts in nodes and measures passes it over.
    pub fn insert(&mut self, x: usize) -> bool
        ensures answer { result ≡ nat_lt x most_nodes }
        ensures after { set_of self.new ≡ (if result then with (set_of self.old) x else set_of self.old) }
    {
        if x >= MOST_NODES {
            return false;
        }
        self.marks[x] = true;
        true
    }

    /// Takes `x` out, if it is a member.
    pub fn remove(&mut self, x: usize)
        ensures { set_of self.new ≡ without (set_of self.old) x }
    {
        if x < MOST_NODES {
            self.marks[x] = false;
        }
    }

    /// The numbers that are members of either.
    pub fn union(&self, other: &NumberSet) -> NumberSet
        ensures { set_of result ≡ union (set_of self.now) (set_of other.now) }
    {
        NumberSet::from_fn(MOST_NODES, |x| self.contains(x) || other.contains(x))
    }

    /// Whether there is no member below `n`.
    pub fn is_empty_below(&self, n: usize) -> bool
        ensures { result ≡ (size n (set_of self.now) == 0) }
    {
        !self.marks[..n.min(MOST_NODES)].contains(&true)
    }
}
