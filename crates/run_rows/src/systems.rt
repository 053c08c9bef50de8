//! Equations that a system is given.
ghost use Rattle.std.specs.Prelude.{◌≡◌};

use crate::scene::{Refusal, Scene};
use anyhow::Result;
use par2_gf16::Gf;
use par2_matrix::System;
use std::alloc::{AllocError, Global};

/// A system of two unknown buffers of two bytes.
#[derive(Drop)]
pub struct Systems {
    gf: Gf,
    system: System,
    ghost columns: { system.columns ≡ 2 },
    ghost bytes: { system.bytes ≡ 2 },
}

impl Systems {
    /// A system without equations.
    pub fn new(alloc: Global) -> Result<Systems, AllocError> {
        Ok(Systems {
            gf: Gf::new(alloc)?,
            system: System::new(alloc, 2, 2)?,
        })
    }

    fn begin(&mut self, alloc: Global) -> Result<(), Refusal> {
        self.system = System::new(alloc, 2, 2)?;
        Ok(())
    }

    fn offer(&mut self, alloc: Global) -> Result<(), Refusal> {
        let right = Vec::from_slice(alloc, b"\x22\0")?;
        self.system.offer(&self.gf, &[2, 16], right)?;
        Ok(())
    }
}

impl Scene for Systems {
    fn call(&mut self, alloc: Global, name: &str) -> Result<(), Refusal> {
        match name {
            "System::new" => self.begin(alloc),
            "System::offer" => self.offer(alloc),
            _ => Err(Refusal::Other),
        }
    }

    fn show(&mut self, rt: &HostRuntime) -> Result<()> {
        println!(rt; "  rank {}", self.system.rank())?;
        Ok(())
    }
}
