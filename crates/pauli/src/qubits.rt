// How many qubits there can be, and which are among them.
ghost use Rattle.std.specs.Prelude.{◌≡◌};
ghost use Rattle.pauli.specs.Labels.{size_ok, on_board};

pub fn is_size(n: u32) -> bool
    ensures { result ≡ size_ok n }
{
    (1..=64).contains(&n)
}

// Whether a qubit is one of n.
pub fn on_board(n: u32, qubit: u32) -> bool
    ensures { result ≡ on_board n qubit }
{
    (1..=n).contains(&qubit)
}
