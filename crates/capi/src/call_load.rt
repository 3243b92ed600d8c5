// The call that loads an image.
ghost use Rattle.capi.specs.Calls.{Replied, loading};

use packed::{pack, unpack};

// Loading: what image_load::load does, on the packed state.
#[unsafe(no_mangle)]
pub extern "C" fn twin1750_load(
    image: &[u8],
    state: &mut [u16],
    memory: &mut [u16],
    pages: &mut [u16],
    ports: &mut [u16],
) -> u32
    ensures { Replied (loading state.old memory.old pages.old ports.old image.now)
        result state.new memory.new pages.new ports.new }
{
    if state.len() != packed::SIZE {
        return 100;
    }
    let given = unpack(state);
    match image_load::load(given, image, memory, pages, ports) {
        Ok(left) => {
            pack(left, state);
            0
        }
        Err(e) => u32::from(image::questions::number(Err(e))),
    }
}
