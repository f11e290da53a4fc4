// What can be seen of a station from outside.
ghost use Rattle.std.specs.Prelude.{◌≡◌, slice_index};

use crate::unit::Station;
use u5::operand::Register;

impl Station {
    // What a register holds.
    pub fn register(&self, register: Register) -> u32
        ensures value { result ≡ slice_index self.now.registers register.number }
        ensures zero { slice_index self.now.registers 0 ≡ 0 }
    {
        self.registers.get(register)
    }
}
