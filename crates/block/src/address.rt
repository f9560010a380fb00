// Addresses. The number of an account or of a contract is private to this file, and `address_of` alone makes one, behind the range test.
ghost use Rattle.std.specs.Prelude.{◌≡◌};
ghost use Rattle.block.specs.Key.{address_of, address_number};

// "contract addresses 32768 to 65535"
pub const FIRST_CONTRACT: u16 = 32768;

// An account address, 0 to 32767.
#[derive(Clone, Copy)]
pub struct Account(u16);

// A contract address, 32768 to 65535.
#[derive(Clone, Copy)]
pub struct Contract(u16);

// What 16 bits name: the one or the other, never both.
#[derive(Clone, Copy)]
pub enum Address {
    OfAccount(Account),
    OfContract(Contract),
}

impl Account {
    pub fn number(self) -> u16
        ensures { result ≡ self.0 }
    {
        self.0
    }
}

impl Contract {
    pub fn number(self) -> u16
        ensures { result ≡ self.0 }
    {
        self.0
    }
}

impl Address {
    pub fn number(self) -> u16
        ensures { result ≡ address_number self }
    {
        match self {
            Address::OfAccount(account) => account.0,
            Address::OfContract(contract) => contract.0,
        }
    }
}

// What 16 bits name.
pub fn address_of(n: u16) -> Address
    ensures { result ≡ address_of n }
{
    if n < FIRST_CONTRACT {
        Address::OfAccount(Account(n))
    } else {
        Address::OfContract(Contract(n))
    }
}
