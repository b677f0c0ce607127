ghost use Rattle.std.specs.Prelude.{◌≡◌};
ghost use Rattle.memory.specs.Pages.{page_of, offset_of};

/// The first number that is no address: 64 pages of 256 bytes lie below it.
pub const END: usize = 16_384;

/// The page and the offset of an address.
pub fn split(address: usize) -> (usize, usize)
    ensures { result ≡ (page_of address, offset_of address) }
{
    (address / 256, address % 256)
}
