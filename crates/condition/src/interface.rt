// What a hash of conditions is to the code above it.
ghost use Rattle.std.specs.Prelude.{◌≡◌, ℕ, List};

pub trait ConditionHash {
    // The hash as a function on lists of bytes. It depends on neither the value nor the time of the call, so equal
    // inputs have equal answers.
    ghost digest_of: { List ℕ → List ℕ };

    fn hash(&self, input: &[u8; 32]) -> [u8; 32]
        ensures { result ≡ digest_of input.now };
}
