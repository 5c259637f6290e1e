// The editions of CPDLC that a record may be of, and what the clauses ask of one.
#![tactic(auto)]

ghost use Rattle.std.specs.Prelude.{◌≡◌};
ghost use Rattle.editions.specs.Editions.{edition_of, is_type, secures, spares, type_of, user_reasons};

// Each by its application type.
#[derive(Clone, Copy, PartialEq, Eq)]
pub enum Edition {
    Plain = 2,
    Protected = 22,
}

impl Edition {
    pub const PLAIN_TYPE: u64 = 2;

    pub const PROTECTED_TYPE: u64 = 22;

    // Is a number an application type?
    pub fn is_type(n: u64) -> bool
        ensures { result ≡ is_type n }
    {
        n == Edition::PLAIN_TYPE || n == Edition::PROTECTED_TYPE
    }

    // The edition of an application type.
    pub fn of_type(n: u64) -> Edition
        ensures { result ≡ edition_of n }
    {
        if n == Edition::PLAIN_TYPE {
            return Edition::Plain;
        }
        Edition::Protected
    }

    // The application type.
    pub fn number(self) -> u64
        ensures { result ≡ type_of self }
    {
        self as u64
    }

    // Is security a parameter, and compared?
    pub fn secures(self) -> bool
        ensures { result ≡ secures self }
    {
        self == Edition::Protected
    }

    // Is user data left out where there is no message?
    pub fn spares(self) -> bool
        ensures { result ≡ spares self }
    {
        self == Edition::Plain
    }

    // The values of CPDLCUserAbortReason.
    pub fn user_reasons(self) -> u64
        ensures { result ≡ user_reasons self }
    {
        match self {
            Edition::Plain => 7,
            Edition::Protected => 13,
        }
    }
}
