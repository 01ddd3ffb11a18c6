/// What is known of lines once their input has ended.
#[derive(Clone, Copy)]
pub struct Ended {
    /// Whether none of them was answered with an error or a refusal.
    pub all_obeyed: bool,
}
