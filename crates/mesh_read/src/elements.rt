//! The elements that a header declares.
ghost use Rattle.std.specs.Prelude.{◌≡◌, ◌<◌, ◌≤◌, ◌^◌, ◌++◌, ◌∷◌, [], length, false, ◌==◌, IfOk, filter_map};
ghost use Rattle.std.specs.List.{slice_get};
ghost use Rattle.mesh_read.specs.Ply.{has_name, is_face, is_vertex, count_of, total, before_faces, too_many};
ghost use Rattle.mesh_read.specs.SeenElements.{seen_elements};

use refusals::MeshFault;
use std::alloc::{AllocError, Global};
use std::collections::BTreeSet;
use std::marker::Model;

/// The greatest count that is read.
const COUNT_LIMIT: u64 = 1 << 30;

/// An element and its number of lines.
#[derive(Clone, Copy)]
pub struct Element<'a> {
    pub name: &'a [u8],
    pub count: u64,
}

/// Elements of different names in order, and these names in a set, where a name is found at once.
#[derive(Drop)]
pub struct Elements<'a> {
    list: Vec<Element<'a>>,
    names: BTreeSet<&'a [u8]>,
}

impl<'a> Model for Elements<'a> {
    ghost use Rattle.std.specs.Prelude.{List, ℕ};

    ghost Value = { List (List ℕ × ℕ) };

    ghost use Rattle.mesh_read.specs.SeenElements.{seen_elements, HoldsNames};

    ghost view = { λ e. seen_elements e.list.items };

    ghost invariant = { λ e. HoldsNames e.names (seen_elements e.list.items) };
}

impl<'a> Elements<'a> {
    /// No elements.
    pub fn new(alloc: Global) -> Elements<'a>
        ensures { result ≡ [] }
    {
        Elements {
            list: Vec::new(alloc),
            names: BTreeSet::new(alloc),
        }
    }

    /// Whether there is an element of this name.
    pub fn has(&self, name: &'a [u8]) -> bool
        ensures { result ≡ has_name name.now self.now }
    {
        self.names.contains(name)
    }

    /// Whether there are none.
    pub fn is_empty(&self) -> bool
        ensures { result ≡ (length self.now == 0) }
    {
        self.list.is_empty()
    }

    /// The elements in order.
    pub fn list(&self) -> &[Element<'a>]
        ensures { seen_elements result.now ≡ self.now }
    {
        &self.list
    }

    /// Puts an element of a new name at the end.
    pub fn add(&mut self, name: &'a [u8], count: u64) -> Result<(), AllocError>
        requires { has_name name.now self.old ≡ false }
        ensures { IfOk result (λ _. self.new ≡ self.old ++ (name.now, count) ∷ []) }
    {
        self.list.reserve(1)?;
        self.names.insert(name)?;
        self.list.push(Element { name, count })?;
        Ok(())
    }
}

/// Whether an element is the one of faces.
#[tactic(auto, unfolding(crate::specs::Ply::is_face))]
pub fn is_face_name(name: &[u8]) -> bool
    ensures { result ≡ is_face name.now }
{
    name == b"face".as_slice()
}

/// Whether an element is the one of vertices.
#[tactic(auto, unfolding(crate::specs::Ply::is_vertex))]
fn is_vertex_name(name: &[u8]) -> bool
    ensures { result ≡ is_vertex name.now }
{
    name == b"vertex".as_slice()
}

/// The lines of the element of vertices.
pub fn vertex_lines(elements: &[Element<'_>]) -> u64
    ensures { result ≡ count_of is_vertex (seen_elements elements.now) }
{
    let mut rest = elements;
    while let [e, more @ ..] = rest {
        if is_vertex_name(e.name) {
            return e.count;
        }
        rest = more;
    }
    0
}

/// The lines of the element of faces.
pub fn face_lines(elements: &[Element<'_>]) -> u64
    ensures { result ≡ count_of is_face (seen_elements elements.now) }
{
    let mut rest = elements;
    while let [e, more @ ..] = rest {
        if is_face_name(e.name) {
            return e.count;
        }
        rest = more;
    }
    0
}

/// The lines before the faces.
pub fn lines_before(elements: &[Element<'_>]) -> u64
    requires { total (seen_elements elements.now) < 2 ^ 64 }
    ensures { result ≡ before_faces (seen_elements elements.now) }
{
    let mut sum = 0;
    let mut rest = elements;
    while let [e, more @ ..] = rest {
        if is_face_name(e.name) {
            return sum;
        }
        sum += e.count;
        rest = more;
    }
    sum
}

/// The lines of all elements.
pub fn all_lines(elements: &[Element<'_>]) -> u64
    requires { total (seen_elements elements.now) < 2 ^ 64 }
    ensures { result ≡ total (seen_elements elements.now) }
{
    let mut sum = 0;
    let mut rest = elements;
    while let [e, more @ ..] = rest {
        sum += e.count;
        rest = more;
    }
    sum
}

/// The first count that is above the limit, as a fault.
pub fn first_above(elements: &[Element<'_>]) -> Option<MeshFault>
    ensures { result ≡ slice_get (filter_map too_many (seen_elements elements.now)) 0 }
{
    let mut rest = elements;
    while let [e, more @ ..] = rest {
        if e.count > COUNT_LIMIT {
            return Some(MeshFault::TooMany { n: e.count });
        }
        rest = more;
    }
    None
}
