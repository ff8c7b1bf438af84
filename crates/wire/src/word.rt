// The words of a message, each of four bytes.
ghost use Rattle.std.specs.Prelude.{◌≡◌, map};
ghost use Rattle.std.specs.Int.{w32, from_le_bytes};
ghost use Rattle.model.specs.Request.{exactly, fitting};
ghost use Rattle.model.specs.Word.{words, int};

use model::{Fault, Refusal};

// The signed number that a word stands for: the cast, said once in the words that requests are described by.
#[tactic(auto, unfolding(model::specs::Word::int))]
pub(crate) fn to_int(word: u32) -> i32
    ensures { result ≡ int word }
{
    word.cast_signed()
}

// The bytes of the words of which all four are there.
pub(crate) fn chunks(bytes: &[u8]) -> &[[u8; 4]]
    ensures { map (from_le_bytes w32) result.now ≡ words bytes.now }
{
    let (chunks, _) = bytes.as_chunks();
    chunks
}

// The words of a body that has `N` of them, as the request takes.
pub(crate) fn arguments<const N: usize>(body: &[u8]) -> Result<[u32; N], Fault>
    ensures { result ≡ fitting (exactly N (words body.now)) (words body.now) }
{
    let chunks = chunks(body);
    if chunks.len() != N {
        return Err(Refusal::BadArguments.into());
    }
    // By place: the library's `map` for arrays owes that five times `N` fits, and what is written through `zip` is not known.
    let mut words = [0; N];
    for (i, chunk) in chunks.iter().enumerate() {
        words[i] = u32::from_le_bytes(*chunk);
    }
    Ok(words)
}
