// Slots in memory, which both drives are made of.
ghost use Rattle.std.specs.Prelude.{◌≡◌, length, replicate};
ghost use Rattle.drive.specs.Views.{Made, zero_slot, settled, mixed, bit};
ghost use Rattle.drive.specs.Areas.{AreaRead, AreaWrite, Kept};

use crate::{DriveFault, MakeFault, SLOT_BYTES};
use std::alloc::Global;

// The drives share the calls of an area. They are two types, since all else differs: one has a second area of safe slots,
// which a policy of one type would have to hold and to treat in each call.
pub mod buffered;
pub mod direct;

// How many bytes of a slot are its front.
const FRONT_BYTES: usize = 16;

// Some slots: one at least, and no more than slot numbers can tell apart.
#[derive(Drop)]
struct Area {
    slots: Vec<[u8; SLOT_BYTES]>,
    ghost kept: { Kept slots.items },
}

impl Area {
    // How many slots there are.
    fn count(&self) -> u32
        ensures { result ≡ length self.now.slots.items }
    {
        self.slots.len() as u32
    }

    // Copies one slot.
    fn read(&self, slot: u32, out: &mut [u8; SLOT_BYTES]) -> Result<(), DriveFault>
        ensures { AreaRead self.now.slots.items slot out.old result out.new }
    {
        *out = *self.slots.get(slot as usize).ok_or(DriveFault::NoSuchSlot)?;
        Ok(())
    }

    // Changes one slot.
    fn write(&mut self, slot: u32, bytes: &[u8; SLOT_BYTES]) -> Result<(), DriveFault>
        ensures { AreaWrite self.old.slots.items slot bytes.now result self.new.slots.items }
    {
        let place = self
            .slots
            .get_mut(slot as usize)
            .ok_or(DriveFault::NoSuchSlot)?;
        copy_slot(place, bytes);
        Ok(())
    }

    // Zeroes every slot.
    fn zero(&mut self)
        ensures { self.new.slots.items ≡ replicate (length self.old.slots.items) zero_slot }
    {
        self.slots.fill([0; SLOT_BYTES]);
    }

    // Takes over every slot of another area.
    fn copy(&mut self, from: &Area)
        requires { length self.old.slots.items ≡ length from.now.slots.items }
        ensures { self.new.slots.items ≡ from.now.slots.items }
    {
        self.slots.copy_from_slice(&from.slots);
    }

    // Takes over the slots of another area whose bit is 1.
    fn keep(&mut self, from: &Area, kept: u64)
        requires { length self.old.slots.items ≡ length from.now.slots.items }
        ensures even { length self.new.slots.items ≡ length from.now.slots.items }
        ensures mix { self.new.slots.items ≡ mixed (bit kept) from.now.slots.items self.old.slots.items }
    {
        take_over(&mut self.slots, &from.slots, kept);
    }
}

// Copies a slot over another, its front last: the copy of the rest is then joined with the one that put it into `from`.
// (In one copy, benchmark `log` takes 1.49 times the instructions of plain Rust instead of 0.98.)
fn copy_slot(to: &mut [u8; SLOT_BYTES], from: &[u8; SLOT_BYTES])
    ensures { to.new ≡ from.now }
{
    to[FRONT_BYTES..].copy_from_slice(&from[FRONT_BYTES..]);
    to[..FRONT_BYTES].copy_from_slice(&from[..FRONT_BYTES]);
}

// Takes over the slots of `from` whose bit is 1.
fn take_over(to: &mut [[u8; SLOT_BYTES]], from: &[[u8; SLOT_BYTES]], kept: u64)
    requires { length to.old ≡ length from.now }
    ensures { to.new ≡ mixed (bit kept) from.now to.old }
{
    let mut bits = kept;
    for (i, slot) in from.iter().enumerate() {
        if bits % 2 == 1 {
            to[i] = *slot;
        }
        bits /= 2;
    }
}

// An area of that many slots of zeros.
fn zeros(heap: Global, count: u32) -> Result<Area, MakeFault>
    ensures { Made count (λ a. settled a.slots.items) result }
{
    if count == 0 {
        return Err(MakeFault::NoSlots);
    }
    let slots = vec![in heap; [0; SLOT_BYTES]; count as usize]?;
    Ok(Area { slots })
}
