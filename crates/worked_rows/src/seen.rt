//! Tuples beside those that are wanted.

use heap::Tuples;
use pg_base::Tid;

/// The row numbers of tuples, one tuple after another.
#[derive(Clone, Copy)]
pub(crate) enum Wanted<'a> {
    /// These.
    These(&'a [u32]),
    /// Of 1000 tuples of two relations; tuple n, from 0, has n and 999 - n.
    Mirrored,
}

/// The number at a place of the mirrored tuples.
fn mirrored(place: usize) -> Option<u32> {
    if place >= 2000 {
        return None;
    }
    let n = (place / 2) as u32;
    if place % 2 == 0 {
        Some(n)
    } else {
        Some(999u32.saturating_sub(n))
    }
}

/// The number at a place.
fn number_at(wanted: Wanted, place: usize) -> Option<u32> {
    match wanted {
        Wanted::These(numbers) => numbers.get(place).copied(),
        Wanted::Mirrored => mirrored(place),
    }
}

/// How far the wanted tuples were seen, and whether no other was.
pub(crate) struct Seen<'a> {
    wanted: Wanted<'a>,
    place: usize,
    same: bool,
}

impl<'a> Drop for Seen<'a> {
    fn drop(self) {
        let Seen {
            wanted: _,
            place: _,
            same: _,
        } = self;
    }
}

impl<'a> Seen<'a> {
    /// None seen yet.
    pub(crate) fn new(wanted: Wanted<'a>) -> Seen<'a> {
        Seen {
            wanted,
            place: 0,
            same: true,
        }
    }

    /// One number more.
    pub(crate) fn see(&mut self, number: Tid) {
        self.same = self.same && number_at(self.wanted, self.place) == Some(number.0);
        self.place = self.place.saturating_add(1);
    }

    /// One tuple more.
    pub(crate) fn see_tuple(&mut self, tuple: &[Tid]) {
        for number in tuple {
            self.see(*number);
        }
    }

    /// More tuples, in order.
    pub(crate) fn see_all(&mut self, tuples: &Tuples) {
        for n in 0..tuples.len() {
            self.see_tuple(tuples.get(n));
        }
    }

    /// Whether the wanted tuples were seen, and no other.
    pub(crate) fn is_all(&self) -> bool {
        self.same && number_at(self.wanted, self.place).is_none()
    }
}
