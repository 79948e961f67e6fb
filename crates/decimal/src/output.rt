ghost use Rattle.std.specs.Prelude.{◌≡◌, ◌≤◌, [], ◌∷◌, ◌++◌, length, take, drop};

// Text that is written to memory of the caller's. Clauses see it as `page_of` has it: what is written, and the bytes behind it. There is no
// `impl Model`: by that they could not say that the text still lies in the memory that was lent. No `Vec`: there is no heap.
#[derive(Drop)]
pub struct Output<'a> {
    bytes: &'a mut [u8],
    len: usize,
    ghost within: { len ≤ length bytes.now },
}

impl<'a> Output<'a> {
    ghost use Rattle.decimal.specs.Output.{page, page_of, Writes};

    pub fn new(bytes: &'a mut [u8]) -> Output<'a>
        ensures empty { page_of result ≡ page [] bytes.old }
        ensures same_reference { result.bytes.ghost_name ≡ bytes.entry.ghost_name }
    {
        Output { bytes, len: 0 }
    }

    pub fn written(&self) -> &[u8]
        ensures { result.now ≡ (page_of self.now).written }
    {
        &self.bytes[..self.len]
    }

    // Lets what is written be written over.
    pub fn clear(&mut self)
        ensures empty { page_of self.new ≡ page [] ((page_of self.old).written ++ (page_of self.old).rest) }
        ensures same_reference { self.new.bytes.ghost_name ≡ self.old.bytes.ghost_name }
    {
        self.len = 0;
    }

    pub fn push(&mut self, byte: u8)
        requires { 1 ≤ length (page_of self.old).rest }
        ensures text { Writes (page_of self.old) (byte ∷ []) 1 (page_of self.new) }
        ensures same_reference { self.new.bytes.ghost_name ≡ self.old.bytes.ghost_name }
    {
        self.bytes[self.len] = byte;
        self.len += 1;
    }
}
