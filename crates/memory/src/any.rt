ghost use Rattle.memory.specs.declared.any.AnyMemory.TheVariants.{Ram, Rom, StatusPage};

use crate::Memory;
use crate::ram::Ram;
use crate::rom::Rom;
use crate::status_page::StatusPage;

/// A memory whose kind is chosen as the program runs. It owns what it is, so it is an enum: there is no heap for a box.
#[derive(Debug, Drop)]
pub enum AnyMemory<'a> {
    Ram(Ram<'a>),
    Rom(Rom<'a>),
    StatusPage(StatusPage<'a>),
}

impl<'a> Memory for AnyMemory<'a> {
    ghost pages = { elim [
      | Ram memory ↦ ⟦<Ram<'a> as Memory>⟧.pages memory
      | Rom memory ↦ ⟦<Rom<'a> as Memory>⟧.pages memory
      | StatusPage memory ↦ ⟦<StatusPage<'a> as Memory>⟧.pages memory
    ] };

    ghost effect = { elim [
      | Ram memory ↦ ⟦<Ram<'a> as Memory>⟧.effect memory
      | Rom memory ↦ ⟦<Rom<'a> as Memory>⟧.effect memory
      | StatusPage memory ↦ ⟦<StatusPage<'a> as Memory>⟧.effect memory
    ] };

    fn read(&self, address: usize) -> u8 {
        match self {
            AnyMemory::Ram(memory) => memory.read(address),
            AnyMemory::Rom(memory) => memory.read(address),
            AnyMemory::StatusPage(memory) => memory.read(address),
        }
    }

    fn write(&mut self, address: usize, byte: u8) {
        match self {
            AnyMemory::Ram(memory) => memory.write(address, byte),
            AnyMemory::Rom(memory) => memory.write(address, byte),
            AnyMemory::StatusPage(memory) => memory.write(address, byte),
        }
    }
}
