// Objects by number in a store: a put is pending until it lands.
#![tactic(auto)]

ghost use Rattle.std.specs.Prelude.{◌≡◌, length};
ghost use Rattle.store.specs.Views.{StoreView, next_from};
ghost use Rattle.store.specs.Calls.{Put, Polled, sized, Got, Deleted, CutTo};

pub mod directory;
pub mod fault;
#[cfg(test)]
mod tests;

use fault::StoreFault;

pub trait Store {
    ghost meaning: { Self → StoreView };

    // Takes an object, which is then pending.
    fn put(&mut self, number: u32, bytes: &[u8]) -> Result<(), StoreFault>
        ensures { Put (meaning self.old) number bytes.now result (meaning self.new) };

    // Lands one pending put and answers its number.
    fn poll(&mut self) -> Option<u32>
        ensures { Polled (meaning self.old) result (meaning self.new) };

    // The length of a landed object.
    fn size(&self, number: u32) -> Result<u32, StoreFault>
        ensures { result ≡ sized (meaning self.now) number };

    // Copies the part of a landed object that begins at `from` and is as long as `out`.
    fn get(&self, number: u32, from: u32, out: &mut [u8]) -> Result<(), StoreFault>
        ensures { Got (meaning self.now) number from out.old result out.new };

    // The lowest landed number from `from` on.
    fn next(&self, from: u32) -> Option<u32>
        ensures { result ≡ next_from (meaning self.now).landed from };

    // How many puts are pending.
    fn waiting(&self) -> u32
        ensures { result ≡ length (meaning self.now).pending };

    // Removes a landed object for good.
    fn delete(&mut self, number: u32) -> Result<(), StoreFault>
        ensures { Deleted (meaning self.old) number result (meaning self.new) };

    // Cuts the power: each pending put lands whole or vanishes.
    fn cut(&mut self, survivors: u64)
        ensures { CutTo (meaning self.old) (meaning self.new) };
}
