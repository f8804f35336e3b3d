/// What is to be done once.
pub trait Job {
    /// What must hold before.
    ghost needs: { Self → Type 0 };

    /// The job before and after it was worked on.
    ghost worked: { Self → Self → Type 0 };

    /// Works on it. It may wait for others.
    fn work(&mut self)
        requires { needs self.old }
        ensures { worked self.old self.new };
}
