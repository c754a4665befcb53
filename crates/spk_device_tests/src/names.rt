//! Names by their calls. What the tests ask of them they ask through a trait without clauses.
use spk_names::Names;
use std::alloc::Global;
use std::process::Abort;

/// What the tests ask of names.
trait Lists {
    /// Whether a name is new. Where a growth was refused, nothing has changed, and the call is made again.
    fn enter_again(&mut self, alloc: Global, name: &str, number: usize) -> Option<bool>;

    fn number_of(&self, name: &str) -> Option<usize>;

    fn number_at(&self, place: usize) -> Option<usize>;

    fn count(&self) -> usize;
}

/// Enters a name: whether it is new. None where memory is refused.
fn entered(alloc: Global, names: &mut Names, name: &str, number: usize) -> Option<bool> {
    match String::from_str(alloc, name) {
        Ok(text) => names.enter(text, number).ok(),
        Err(_) => None,
    }
}

impl Lists for Names {
    fn enter_again(&mut self, alloc: Global, name: &str, number: usize) -> Option<bool> {
        let before = self.len();
        for _ in 0..4 {
            match entered(alloc, self, name, number) {
                Some(is_new) => return Some(is_new),
                None => {
                    if self.len() != before {
                        return None;
                    }
                }
            }
        }
        None
    }

    fn number_of(&self, name: &str) -> Option<usize> {
        self.find(name)
    }

    fn number_at(&self, place: usize) -> Option<usize> {
        self.at(place)
    }

    fn count(&self) -> usize {
        self.len()
    }
}

/// A name, a number, and whether it is new.
static ENTERED: [(&str, usize, bool); 5] = [
    ("b", 7, true),
    ("a", 0, true),
    ("b", 9, false),
    ("", 4, true),
    ("B", 7, true),
];

static FOUND: [(&str, Option<usize>); 6] = [
    ("a", Some(0)),
    ("b", Some(7)),
    ("", Some(4)),
    ("B", Some(7)),
    ("ab", None),
    ("\0", None),
];

static AT: [Option<usize>; 5] = [Some(7), Some(0), Some(4), Some(7), None];

fn enters<T: Lists>(rt: &(impl Abort + AllocGlobal), names: &mut T) {
    for (name, number, is_new) in &ENTERED {
        let answer = names.enter_again(rt.alloc(), name, *number);
        assert!(rt; answer == Some(*is_new), "{name:?}");
    }
}

fn finds<T: Lists>(rt: &impl Abort, names: &T) {
    for (name, number) in &FOUND {
        assert!(rt; names.number_of(name) == *number, "{name:?}");
    }
    for (place, number) in AT.iter().enumerate() {
        assert!(rt; names.number_at(place) == *number, "{place}");
    }
    assert!(rt; names.count() == 4);
}

#[test]
fn a_name_keeps_its_first_number_and_its_place(rt: HostRuntime) {
    let mut names = Names::new(rt.alloc());
    enters(&rt, &mut names);
    finds(&rt, &names);
}
