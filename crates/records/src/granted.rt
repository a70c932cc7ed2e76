// What a granted step makes: the row after it, and the message that it sends.
#[derive(Clone, Copy, Debug, PartialEq, Eq)]
pub struct Granted<Row, Sent> {
    pub row: Row,
    pub sent: Sent,
}
