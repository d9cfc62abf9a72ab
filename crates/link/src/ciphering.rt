// A payload xor the GEA4 octets of its number.
#![tactic(auto, unfolding(crate::specs::Input::sx, crate::specs::Input::input_of))]

ghost use Rattle.std.specs.Prelude.{◌≡◌, ◌<◌, ◌≤◌, true, length};
ghost use Rattle.refusals.specs.Call.{front};
ghost use Rattle.link.specs.Input.{sx, input_of};
ghost use Rattle.link.specs.Link.{link_can_arise, ciphered};

use super::Link;

impl Link {
    // SX = 2^27 * SAPI + 2^31.
    fn sx(&self) -> u32
        requires { self.now.sapi ≤ 15 }
        ensures { result ≡ sx self.now.sapi }
    {
        134_217_728 * u32::from(self.sapi) + 2_147_483_648
    }

    // INPUT = ((IOV xor SX) + n) mod 2^32.
    fn input(&self, number: u32) -> u32
        requires { self.now.sapi ≤ 15 }
        ensures { result ≡ input_of self.now.iov self.now.sapi number }
    {
        (self.iov ^ self.sx()).wrapping_add(number)
    }

    // Puts the payload, ciphered or deciphered, to the front of an output that has room for it.
    pub(crate) fn put_ciphered(&self, number: u32, payload: &[u8], output: &mut [u8])
        requires { (link_can_arise self.now ≡ true) × ((0 < length payload.now) × ((length payload.now ≤ 1520) × (length payload.now ≤ length output.old))) }
        ensures { output.new ≡ front (ciphered self.now number payload.now) output.old }
    {
        let input = self.input(number);
        let size = payload.len() as u32;
        let mut stream = [0; frames::MOST_PAYLOAD];
        keystreams::gea4(&self.key, input, self.direction, size, &mut stream).unwrap();
        octets::xor(payload, &stream, output).unwrap();
    }
}
