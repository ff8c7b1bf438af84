// The CRC-32 of PNG, over pixels.
ghost use Rattle.std.specs.Prelude.{◌≡◌, fold};
ghost use Rattle.report.specs.Crc.{shifted, fed, crc as crcOf, bytes, pixel_bytes};

// The polynomial, with its lowest power at the top bit.
const POLYNOMIAL: u32 = 0xedb8_8320;

// The CRC-32 of the pixels' bytes, each pixel low byte first.
pub fn crc32(pixels: &[u32]) -> u32
    ensures { result ≡ crcOf (bytes pixels.now) }
{
    // By pixels, since a `flat_map` over their bytes takes twice as long.
    pixels
        .iter()
        .fold(0xffff_ffff, |crc, pixel| feed_pixel(crc, *pixel))
        ^ 0xffff_ffff
}

// The register after the four bytes of a pixel.
fn feed_pixel(crc: u32, pixel: u32) -> u32
    ensures { result ≡ fold fed crc (pixel_bytes pixel) }
{
    let bytes = pixel.to_le_bytes();
    bytes.iter().fold(crc, |crc, byte| feed(crc, *byte))
}

// The register after one more byte.
fn feed(crc: u32, byte: u8) -> u32
    ensures { result ≡ fed crc byte }
{
    (0..8u8).fold(crc ^ u32::from(byte), |register, _| shift(register))
}

// The register with its low bit shifted out.
fn shift(crc: u32) -> u32
    ensures { result ≡ shifted crc }
{
    if crc % 2 == 1 {
        crc >> 1 ^ POLYNOMIAL
    } else {
        crc >> 1
    }
}
