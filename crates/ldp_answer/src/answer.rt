use ldp_decimal::Text;

/// What a command prints, and whether it is a rejection: a text that tells why the input is not
/// accepted.
#[derive(Drop)]
pub struct Answer {
    pub rejected: bool,
    pub text: Text,
}
