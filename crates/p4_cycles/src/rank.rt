//! Ranks of states: the numbers of their components, by Tarjan's algorithm. Nothing rests on them but speed.

use rp_base::NoMemory;
use sqlite_items::Items;
use std::alloc::Global;

// What is known of the states so far: 0 in `seen` is a state that wasn't met.
#[derive(Drop)]
struct Search {
    seen: Vec<u64>,
    low: Vec<u64>,
    ranks: Vec<u64>,
    next: Vec<usize>,
    path: Vec<usize>,
    open: Vec<usize>,
    count: u64,
    rank: u64,
}

fn at(xs: &[u64], i: usize) -> u64 {
    xs.get(i).copied().unwrap_or(0)
}

fn set(xs: &mut [u64], i: usize, x: u64) {
    if i < xs.len() {
        xs[i] = x;
    }
}

impl Search {
    fn new(alloc: Global, n: usize) -> Result<Search, NoMemory> {
        let mut zeros = Vec::new(alloc);
        zeros.resize(n, 0)?;
        let mut next = Vec::new(alloc);
        next.resize(n, 0)?;
        Ok(Search {
            seen: zeros.clone()?,
            low: zeros.clone()?,
            ranks: zeros,
            next,
            path: Vec::new(alloc),
            open: Vec::new(alloc),
            count: 0,
            rank: 0,
        })
    }

    fn enter(&mut self, x: usize) -> Result<(), NoMemory> {
        self.count = self.count.saturating_add(1);
        set(self.seen.as_mut_slice(), x, self.count);
        set(self.low.as_mut_slice(), x, self.count);
        self.path.push(x)?;
        self.open.push(x)?;
        Ok(())
    }

    // The next target of the last state on the path, where one is left.
    fn step(&mut self, g: &[Items<u64>], x: usize) -> Option<usize> {
        let i = self.next.get(x).copied().unwrap_or(0);
        if x < self.next.len() {
            self.next[x] = i.saturating_add(1);
        }
        match g.get(x) {
            None => None,
            Some(ys) => match ys.get(i) {
                None => None,
                Some(y) => Some(*y as usize),
            },
        }
    }

    // A component ends at its first state.
    fn close(&mut self, x: usize) {
        self.rank = self.rank.saturating_add(1);
        for _turn in 0..self.open.len() {
            let Some(y) = self.open.pop() else {
                return;
            };
            set(self.ranks.as_mut_slice(), y, self.rank);
            if y == x {
                return;
            }
        }
    }

    fn lower(&mut self, x: usize, low: u64) {
        let l = at(self.low.as_slice(), x);
        set(self.low.as_mut_slice(), x, l.min(low));
    }

    // All targets of the last state were met.
    fn leave(&mut self, x: usize) {
        if at(self.low.as_slice(), x) == at(self.seen.as_slice(), x) {
            self.close(x);
        }
        let _left = self.path.pop();
        if let Some(above) = self.path.last().copied() {
            let l = at(self.low.as_slice(), x);
            self.lower(above, l);
        }
    }

    fn meet(&mut self, x: usize, y: usize) -> Result<(), NoMemory> {
        if y < self.seen.len() && at(self.seen.as_slice(), y) == 0 {
            return self.enter(y);
        }
        if at(self.ranks.as_slice(), y) == 0 {
            let seen = at(self.seen.as_slice(), y);
            self.lower(x, seen);
        }
        Ok(())
    }
}

fn edges(g: &[Items<u64>]) -> usize {
    let mut n: usize = 0;
    for ys in g {
        n = n.saturating_add(ys.len());
    }
    n
}

/// A rank for each state of a graph.
///
/// # Errors
/// `NoMemory`.
pub fn ranks(alloc: Global, g: &[Items<u64>]) -> Result<Items<u64>, NoMemory> {
    let mut search = Search::new(alloc, g.len())?;
    let turns = edges(g).saturating_add(g.len()).saturating_add(1);
    for root in 0..g.len() {
        if at(search.seen.as_slice(), root) != 0 {
            continue;
        }
        search.enter(root)?;
        for _turn in 0..turns {
            let Some(x) = search.path.last().copied() else {
                break;
            };
            match search.step(g, x) {
                Some(y) => {
                    search.meet(x, y)?;
                }
                None => {
                    search.leave(x);
                }
            }
        }
    }
    let Search { ranks, .. } = search;
    Ok(Items::from_vec(ranks))
}
