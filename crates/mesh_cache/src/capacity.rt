//! How much a cache keeps.

ghost use Rattle.std.specs.Prelude.{◌≡◌, ◌^◌, ◌≤◌, ◌↔◌, IsSome, IfSome};
ghost use Rattle.mesh_cache.specs.Cache.{AreLimits};

use std::marker::Model;

/// How many bricks a cache keeps at most, and how many pages of 32 entries it has for them.
#[derive(Clone, Copy, Debug, PartialEq, Eq)]
pub struct Capacity {
    bricks: u32,
    pages: u32,
}

impl Model for Capacity {
    ghost use Rattle.mesh_cache.specs.Cache.{Limits, AreLimits};

    ghost Value = { Limits };

    ghost view = { λ c. record { bricks = c.bricks; pages = c.pages } };

    ghost invariant = { λ c. AreLimits (record { bricks = c.bricks; pages = c.pages }) };

    ghost inverse = { λ limits. record { bricks = limits.bricks; pages = limits.pages } };
}

impl Capacity {
    /// So many bricks, from 1 to 65,536, and so many pages, from 16 to 1,048,576; none where one is out of its range.
    pub fn new(bricks: u32, pages: u32) -> Option<Capacity>
        ensures made { IsSome result ↔ AreLimits (record { bricks = bricks; pages = pages }) }
        ensures value { IfSome result (λ c. c ≡ record { bricks = bricks; pages = pages }) }
    {
        if (1..=65_536).contains(&bricks) && (16..=1_048_576).contains(&pages) {
            Some(Capacity { bricks, pages })
        } else {
            None
        }
    }

    /// How many bricks are kept at most.
    pub fn bricks(self) -> u32
        ensures value { result ≡ self.bricks }
        ensures limits { AreLimits self }
    {
        self.bricks
    }

    /// How many pages there are.
    pub fn pages(self) -> u32
        ensures value { result ≡ self.pages }
        ensures limits { AreLimits self }
    {
        self.pages
    }
}
