// The parts of a record, each handed back as a part of the image itself (S2.2, S2.7). Each checks the image.
#![tactic(auto)]

ghost use Rattle.parts.specs.HandedBack.{HandedBack};

use registry::Part;

// The handle of a record, as a part of the image; empty if the image is defective or there is no such record.
pub fn handle(image: &[u8], record_number: u32) -> &[u8]
    ensures { HandedBack image.entry record_number Part.Handle result }
{
    entries::part(image, record_number, Part::Handle)
}

// The name of a record, alike.
pub fn name(image: &[u8], record_number: u32) -> &[u8]
    ensures { HandedBack image.entry record_number Part.Name result }
{
    entries::part(image, record_number, Part::Name)
}

// The range of a block, alike: its first and its last address or number, high byte first. Empty if the record is no block too.
pub fn range(image: &[u8], record_number: u32) -> &[u8]
    ensures { HandedBack image.entry record_number Part.Range result }
{
    entries::part(image, record_number, Part::Range)
}
