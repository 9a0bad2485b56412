// Rows of numbers.
use replay_records::read_numbers;

// As many patterns from this place on, nine bytes apart, as floats.
pub fn numbers_at<const COUNT: usize>(text: &[u8], at: usize) -> [f32; COUNT] {
    let mut numbers = [0.0f32; COUNT];
    read_numbers(text, at, 9, &mut numbers);
    numbers
}
