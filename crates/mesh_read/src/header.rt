//! One pass over the lines of a PLY header, up to its first fault.
//!
//! The names of elements are in an ordered set beside their list, so that a header of many elements costs no more than
//! its sorting.
ghost use Rattle.std.specs.Prelude.{◌≡◌, ◌+◌, ◌<◌, ◌≤◌, ◌^◌, ◌==◌, ◌⊎◌, Some, None, length, drop, true, not, ◌||◌, IfOk, IfErr};
ghost use Rattle.std.specs.List.{list_any};
ghost use Rattle.refusals.specs.declared.mesh.MeshFault.TheVariants.{Memory};
ghost use Rattle.mesh_read.specs.Ply.{has_name, is_face, up_to_end, is_end, header_fault, ply_heads, ply_words};
ghost use Rattle.mesh_read.specs.SeenPly.{seen_heading, told, start, all_told, after_heading, fault_now, late_fault};

use crate::elements::{Elements, first_above, is_face_name};
use crate::heading::{Heading, heading_in, is_end_heading};
use refusals::MeshFault;
use std::alloc::Global;
use text_lines::next_line;

/// What the lines so far say.
#[derive(Drop)]
pub struct Header<'a> {
    /// Whether the format line came.
    pub format: bool,
    /// The elements in order.
    pub elements: Elements<'a>,
    /// The line of the face element, while it has no property.
    pub open_face: Option<u32>,
    /// The line of a face element whose first property is no list of corners.
    pub bad_face: Option<u32>,
    /// The number of the next line.
    pub number: u32,
}

impl<'a> Header<'a> {
    fn new(alloc: Global) -> Header<'a>
        ensures { told result ≡ start }
    {
        Header {
            format: false,
            elements: Elements::new(alloc),
            open_face: None,
            bad_face: None,
            number: 2,
        }
    }

    /// What is wrong with the next line.
    fn fault_at(&self, heading: Heading<'a>) -> Option<MeshFault>
        ensures { result ≡ fault_now (told self.now) (seen_heading heading.entry) }
    {
        let bad = match heading {
            Heading::Unread => false,
            Heading::Ascii => self.format,
            Heading::Binary => return Some(MeshFault::BinaryPly),
            Heading::Element(name, _) => !self.format || self.elements.has(name),
            Heading::Property(_) => self.elements.is_empty(),
            Heading::End => !self.format,
            Heading::Other => true,
        };
        if bad {
            Some(MeshFault::BadHeader { line: self.number })
        } else {
            None
        }
    }

    /// Takes the next line in. It has no fault.
    fn add(&mut self, heading: Heading<'a>) -> Result<(), MeshFault>
        requires number { self.old.number + 1 < 2 ^ 32 }
        requires sound { fault_now (told self.old) (seen_heading heading) ≡ None }
        ensures told { IfOk result (λ _. told self.new ≡ after_heading (told self.old) (seen_heading heading.entry)) }
        ensures memory { IfErr result (λ e. e ≡ Memory) }
    {
        match heading {
            Heading::Ascii => self.format = true,
            Heading::Element(name, count) => {
                self.elements.add(name, count)?;
                self.bad_face = self.bad_face.or(self.open_face);
                self.open_face = if is_face_name(name) {
                    Some(self.number)
                } else {
                    None
                };
            }
            Heading::Property(corners) => {
                if !corners {
                    self.bad_face = self.bad_face.or(self.open_face);
                }
                self.open_face = None;
            }
            _ => {}
        }
        self.number += 1;
        Ok(())
    }

    /// What is wrong with a header whose lines are sound: first its face element, then a count.
    pub fn fault(&self) -> Option<MeshFault>
        ensures { result ≡ late_fault (told self.now) }
    {
        if let Some(line) = self.bad_face.or(self.open_face) {
            return Some(MeshFault::BadHeader { line });
        }
        first_above(self.elements.list())
    }
}

/// Reads the lines behind the first up to the first end, and gives what follows it.
pub fn read_header(alloc: Global, bytes: &[u8]) -> Result<(Header<'_>, &[u8]), MeshFault>
    requires { length bytes.now ≤ 2 ^ 30 }
    ensures told { IfOk result (λ x. told x.0 ≡ all_told start (up_to_end (ply_heads bytes.now))) }
    ensures ended { IfOk result (λ _. list_any is_end (ply_heads bytes.now) ≡ true) }
    ensures body { IfOk result (λ x. ply_words x.1.now
        ≡ drop (length (up_to_end (ply_heads bytes.now))) (ply_words bytes.now)) }
    ensures number { IfOk result (λ x. x.0.number + length x.1.now ≤ 2 + length bytes.now) }
    ensures refused { IfErr result (λ e. (e ≡ Memory) ⊎ (header_fault (ply_heads bytes.now) ≡ Some e)) }
{
    let mut header = Header::new(alloc);
    let mut rest = bytes;
    while let Some((text, after)) = next_line(rest) {
        let heading = heading_in(text);
        if let Some(fault) = header.fault_at(heading) {
            return Err(fault);
        }
        header.add(heading)?;
        rest = after;
        if is_end_heading(heading) {
            return Ok((header, rest));
        }
    }
    Err(MeshFault::BadHeader {
        line: header.number,
    })
}
